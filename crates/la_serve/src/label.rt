// Who speaks, before each line that is told.
ghost use Rattle.std.specs.Prelude.{◌≡◌, ◌++◌, length, OnOk};
ghost use Rattle.la_io.specs.Streams.{Writes};
ghost use Rattle.la_serve.specs.Labels.{label_of, making_label, own_label};

use arrayvec::{ArrayString, ArrayVec};
use itoa::Buffer;
use la_io::{Listener, WriteFailed, tell_all};
use std::io;
use std::io::Write;

/// A listener to which each line is told behind who tells it, as `lattice node: r0: `: so of many nodes in one log it is
/// known which speaks. A line of at most 192 bytes, as all are but those that tell of a folder, is handed on with its
/// label, as one. It takes no memory.
#[derive(Drop)]
pub struct Labelled<E: Listener + Drop> {
    label: ArrayString<24>,
    listener: E,
}

impl<E: Listener + Drop> Labelled<E> {
    /// The listener with the label of this replica, or of the program alone where it is not known.
    pub fn new(own: Option<u8>, listener: E) -> Labelled<E>
        ensures label { result.label.bytes ≡ label_of own }
        ensures listener { result.listener ≡ listener }
    {
        Labelled::speaking("lattice node: ", own, listener)
    }

    /// The same, of what makes a node's folder.
    pub fn making(own: Option<u8>, listener: E) -> Labelled<E>
        ensures label { result.label.bytes ≡ making_label own }
        ensures listener { result.listener ≡ listener }
    {
        Labelled::speaking("lattice init: ", own, listener)
    }

    // The listener with this before each line, and which replica it is, where that is known.
    fn speaking(program: &str, own: Option<u8>, listener: E) -> Labelled<E>
        requires { length program.now ≡ 14 }
        ensures label { result.label.bytes ≡ program.now ++ own_label own }
        ensures listener { result.listener ≡ listener }
    {
        let mut label = ArrayString::new();
        label.push_str(program);
        if let Some(own) = own {
            label.push_str("r");
            label.push_str(Buffer::new().format(own));
            label.push_str(": ");
        }
        Labelled { label, listener }
    }

    /// Tells one line, its end with it, behind the label. The refusal is that of [`la_io::tell_all`]: a front of both may
    /// have been told then.
    pub fn tell(&mut self, line: &[u8]) -> Result<(), WriteFailed>
        ensures ok { OnOk result (Writes E.contents self.old.listener self.new.listener
            (self.old.label.bytes ++ line.now)) }
        ensures label { self.new.label ≡ self.old.label }
    {
        let mut whole: ArrayVec<u8, 216> = ArrayVec::new();
        let label = self.label.as_str().as_bytes();
        let fits = whole.try_extend_from_slice(label).is_ok()
            && whole.try_extend_from_slice(line).is_ok();
        if fits {
            return tell_all(&mut self.listener, whole.as_slice());
        }
        tell_all(&mut self.listener, label)?;
        tell_all(&mut self.listener, line)
    }
}

/// Of what it was told nothing is stated here, as of the real standard error: it may always refuse.
impl<E: Listener + Drop> Write for Labelled<E> {
    fn write(&mut self, buf: &[u8]) -> io::Result<usize> {
        self.listener.write(buf)
    }

    fn flush(&mut self) -> io::Result<()> {
        self.listener.flush()
    }
}

impl<E: Listener + Drop> Listener for Labelled<E> {
    ghost refuses = { λ old bytes new. Unit {0} };

    fn hear(&mut self, bytes: &[u8]) -> Result<usize, WriteFailed> {
        if bytes.is_empty() {
            return Err(WriteFailed);
        }
        self.tell(bytes)?;
        Ok(bytes.len())
    }

    fn settle(&mut self) -> Result<(), WriteFailed> {
        self.listener.settle()
    }
}
