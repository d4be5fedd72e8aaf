// The type alone: the calls on it stand in taking.rt, since what they cite names it.
ghost use Rattle.std.specs.Prelude.{◌≡◌, ◌≤◌, true, false};
ghost use Rattle.la_io.specs.Limits.{limit_of, is_too_long};

use thiserror::Error;

/// How many bytes a line may have that comes from outside.
pub const MAX_LINE: usize = 16_777_216;

/// How many it may have where it can be a message with a set, by the byte that it begins with: as many as a packet of
/// MQTT.
pub const MAX_SET_LINE: usize = 268_435_455;

/// How many bytes a line may have that begins so: [`MAX_SET_LINE`] with `n`, `o` or `t`, as the verbs `no`, `offer` and
/// `tell` do, and else [`MAX_LINE`].
pub fn limit_of(line: &[u8]) -> usize
    ensures { result ≡ limit_of line.now }
{
    match line.first() {
        Some(b'n') | Some(b'o') | Some(b't') => MAX_SET_LINE,
        _ => MAX_LINE,
    }
}

/// Why no line was taken.
#[derive(Clone, Copy, Debug, Error)]
pub enum SourceFault {
    /// A read failed, or was interrupted.
    #[error("ReadFault")]
    ReadFault,

    /// A growth was refused.
    #[error("Memory")]
    Memory,
}

/// What stands next on an input.
#[derive(Clone, Copy)]
pub enum Next {
    /// A line: [`Source::line`].
    Line,
    /// A line of more bytes than [`limit_of`] says, which are not kept.
    Long,
    /// The end of the input, behind bytes that no line's end follows: they are no line.
    Cut,
    /// The end of the input.
    End,
}

/// What was read of an input and not yet taken, and the line that was taken last.
#[derive(Drop)]
pub struct Source {
    pub chunk: [u8; 8192],
    // Of the chunk these bytes are not taken.
    pub start: usize,
    pub end: usize,
    // A read has found nothing.
    pub over: bool,
    pub line: Vec<u8>,
    ghost order: { start ≤ end },
    ghost within: { end ≤ 8192 },
    ghost short: { is_too_long line.items ≡ false },
    ghost none_left: { over ≡ true → start ≡ end },
}
