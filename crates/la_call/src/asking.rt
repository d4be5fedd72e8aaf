// The type alone: the calls on it stand in forming.rt, since what they cite names it.
ghost use Rattle.std.specs.Prelude.{◌≤◌};

#[derive(Drop)]
pub(crate) struct Asking {
    // The line, with its end.
    pub(crate) sent: Vec<u8>,
    // What its answer ends in.
    pub(crate) mark: Vec<u8>,
    // Lines `tick` are time-outs.
    pub(crate) waits: bool,
    // How often it may be written.
    pub(crate) most: u16,
    ghost some: { 1 ≤ most },
}
