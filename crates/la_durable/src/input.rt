ghost use Rattle.std.specs.Prelude.{◌≡◌, true, false, IfOk, IfErr, IfSome, Some, None};
ghost use Rattle.la_wire.specs.Calls.{called};
ghost use Rattle.la_wire.specs.CallLines.{named_call, may_stand, is_clean_byte, is_no_mark};
ghost use Rattle.la_durable.specs.CallLines.{is_line};
ghost use Rattle.std.specs.List.{list_all};
ghost use Rattle.la_durable.specs.Inputs.{IsInputRefusal};

use la_wire::{Call, LineError, LineFault, read_bounded};
use std::alloc::{AllocError, Global};
use std::marker::Model;

/// A line that says a call, and the call.
#[derive(Drop)]
pub struct Input {
    line: Vec<u8>,
    call: Call,
}

impl Model for Input {
    ghost use Rattle.la_durable.specs.Inputs.{InputState, IsInput};

    ghost Value = { InputState };

    ghost view = { λ i. record { line = i.line.items; call = i.call } };

    ghost invariant = { λ i. IsInput (record { line = i.line.items; call = i.call }) };
}

impl Input {
    /// Reads a line from outside, without its end, at a cost linear in it.
    ///
    /// In this order: `TooLong` and the other faults of [`la_wire::read_bounded`]; `BadLine` where the line
    /// has a byte 0 or an end within, or begins with `=` or `~`, since no journal may have it as a call's.
    /// `Memory` may come at any line.
    pub fn read(alloc: Global, line: &[u8]) -> Result<Input, LineError>
        ensures ok { IfOk result (λ input. input.line ≡ line.now) }
        ensures error { IfErr result (IsInputRefusal line.now) }
    {
        let call = read_bounded(alloc, line)?;
        match Input::of(alloc, line, call)? {
            Some(input) => Ok(input),
            None => Err(LineError::Fault(LineFault::BadLine)),
        }
    }

    /// The input of a line that says this call; `None` where no journal may have it. Linear in the line, which is
    /// copied.
    pub fn of(alloc: Global, line: &[u8], call: Call) -> Result<Option<Input>, AllocError>
        requires { named_call line.now ≡ Some (called call) }
        ensures some { IfOk result (λ o. IfSome o (λ input.
            (input.line ≡ line.now) × (is_line line.now ≡ true))) }
        ensures call { IfOk result (λ o. IfSome o (λ input. input.call ≡ call)) }
        ensures none { IfOk result (λ o. o ≡ None → may_stand line.now ≡ false) }
    {
        if !may_stand(line) {
            return Ok(None);
        }
        Ok(Some(Input {
            line: line.to_vec(alloc)?,
            call,
        }))
    }

    /// The line, without its end.
    pub fn line(&self) -> &[u8]
        ensures is { result.now ≡ self.now.line }
        ensures says { is_line self.now.line ≡ true }
    {
        &self.line
    }

    /// The call that it says.
    pub fn call(&self) -> &Call
        ensures is { result.now ≡ self.now.call }
        ensures says { named_call self.now.line ≡ Some (called self.now.call) }
        ensures line { is_line self.now.line ≡ true }
    {
        &self.call
    }
}

/// Whether a journal may have this line as a call's.
fn may_stand(line: &[u8]) -> bool
    ensures { result ≡ may_stand line.now }
{
    is_clean(line) && is_no_mark(line)
}

// Whether it has no byte 0 and no line's end.
pub(crate) fn is_clean(line: &[u8]) -> bool
    ensures { result ≡ list_all is_clean_byte line.now }
{
    line.iter().all(|b| *b != 0 && *b != b'\n')
}

// Whether it begins neither as a state's line nor as a record.
fn is_no_mark(line: &[u8]) -> bool
    ensures { result ≡ is_no_mark line.now }
{
    match line.first() {
        Some(first) => *first != b'=' && *first != b'~',
        None => true,
    }
}
