// A line that asks for something, and what stands around what it calls for.
ghost use Rattle.std.specs.Prelude.{◌≡◌, IfOk, option_map};
ghost use Rattle.la_wire.specs.Questions.{AwaitedLine, awaited_in};
ghost use Rattle.la_serve.specs.Heard.{unawaited};
ghost use Rattle.la_serve.specs.Asking.{IsRequestOf};

use la_set::UpdateId;
use la_wire::{NumberedCall, Question, Take, awaited_in, numbered_in, question_in, take_in};
use std::alloc::{AllocError, Global};

/// A line that asks for something, by its number, and what stands around what it calls for.
#[derive(Clone, Copy)]
pub struct Asking<'a> {
    pub number: u64,
    pub line: &'a [u8],
    /// The name of the request, empty where it has none.
    pub name: &'a str,
    /// Which of the replica's updates a submission is to be, where it says so.
    pub update: Option<u32>,
    /// Which update a question waits for, where it says so.
    pub after: Option<UpdateId>,
}

/// What a line asks for.
#[derive(Drop)]
pub enum Request {
    /// A question that no call says.
    Question(Question),
    /// What takes an element out.
    Take(Take),
    /// A submission under a number.
    Numbered(NumberedCall),
    /// Anything else: a call, or a fault.
    Plain,
}

/// A line without what it waits for, and that.
pub fn unawaited(alloc: Global, line: &[u8]) -> Result<(&[u8], Option<UpdateId>), AllocError>
    ensures line { IfOk result (λ r. r.0.now ≡ unawaited line.now (awaited_in line.now)) }
    ensures after { IfOk result (λ r. r.1 ≡ option_map (λ (a : AwaitedLine). a.after) (awaited_in line.now)) }
{
    match awaited_in(alloc, line)? {
        Some(awaited) => Ok((awaited.plain, Some(awaited.after))),
        None => Ok((line, None)),
    }
}

/// What a line without a name asks for.
pub fn request_of(alloc: Global, line: &[u8]) -> Result<Request, AllocError>
    ensures { IfOk result (IsRequestOf line.now) }
{
    if let Some(question) = question_in(alloc, line)? {
        return Ok(Request::Question(question));
    }
    if let Some(take) = take_in(alloc, line)? {
        return Ok(Request::Take(take));
    }
    match numbered_in(alloc, line)? {
        Some(numbered) => Ok(Request::Numbered(numbered)),
        None => Ok(Request::Plain),
    }
}
