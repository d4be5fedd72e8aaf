// Readers that put in something of their own where nothing comes.
ghost use Rattle.std.specs.Prelude.{◌≡◌};

use std::io::{Read, Stdin};

/// A reader that may put lines of its own between those that come, where nothing comes for a while, ever more seldom.
/// Who reads says when it is to be as often as at first. A reader that puts none has nothing to do.
pub trait Paced: Read {
    /// Something has come that matters: what is put in next comes as soon as at first. It takes no memory, and what is
    /// left to be read is as it was.
    fn begin_anew(&mut self)
        ensures { Self.remaining self.new ≡ Self.remaining self.old };
}

impl Paced for Stdin {
    fn begin_anew(&mut self) {}
}

impl Paced for &[u8] {
    fn begin_anew(&mut self) {}
}
