// The types alone: the calls on them stand in handing.rt, since what they cite names them.
ghost use Rattle.std.specs.Prelude.{◌≤◌, ◌<◌, length};

use crate::chunk::Chunk;
use crate::pace::Pace;
use std::io::ErrorKind;

// What came at once, at least one byte.
#[derive(Drop)]
pub(crate) struct Filled {
    pub(crate) chunk: Chunk,
    ghost some: { 0 < length chunk },
}

// Why no more comes.
#[derive(Clone, Copy)]
pub(crate) enum Ending {
    // The input's end.
    Over,
    // A read failed, for this.
    Failed(ErrorKind),
}

// What came and is not handed on yet, and what was heard until now, as far as ticks go by it.
#[derive(Drop)]
pub(crate) struct Feed {
    pub(crate) chunk: Chunk,
    // So many of its bytes are handed on.
    pub(crate) taken: usize,
    // What came is whole lines.
    pub(crate) whole: bool,
    pub(crate) pace: Pace,
    pub(crate) ending: Option<Ending>,
    ghost within: { taken ≤ length chunk },
}
