// A request as it is written, under its name.
ghost use Rattle.std.specs.Prelude.{◌≡◌, ◌++◌, ◌∷◌, [], ◌<◌, IfOk};
ghost use Rattle.la_call.specs.Asking.{plan_in};
ghost use Rattle.la_call.specs.Calls.{plan_by};
ghost use Rattle.la_call.specs.Names.{hex_digit, hex_digits, name_by};
ghost use Rattle.la_call.specs.Words.{mark_of};

use crate::CallOptions;
use crate::asking::Asking;
use crate::words::may_repeat;
use std::alloc::{AllocError, Global};

// The digit of a number below 16.
fn hex_digit(n: u8) -> u8
    requires { n < 16 }
    ensures { result ≡ hex_digit n }
{
    if n < 10 { 48 + n } else { 87 + n }
}

// The digits of bytes.
fn hex(alloc: Global, bytes: &[u8]) -> Result<Vec<u8>, AllocError>
    ensures { IfOk result (λ digits. digits.items ≡ hex_digits bytes.now) }
{
    let mut digits = Vec::new(alloc);
    for byte in bytes {
        digits.push(hex_digit(*byte / 16))?;
        digits.push(hex_digit(*byte % 16))?;
    }
    Ok(digits)
}

// The request's name: the one that was given, or the digits of what was drawn.
pub(crate) fn name_by(
    alloc: Global,
    options: &CallOptions,
    drawn: &[u8; 8],
) -> Result<Vec<u8>, AllocError>
    ensures { IfOk result (λ name. name.items ≡ name_by options.now drawn.now) }
{
    match &options.name {
        Some(name) => name.as_bytes().to_vec(alloc),
        None => hex(alloc, drawn.as_slice()),
    }
}

// What stands behind the request, and behind its answer.
fn mark_of(alloc: Global, name: &[u8]) -> Result<Vec<u8>, AllocError>
    ensures { IfOk result (λ mark. mark.items ≡ mark_of name.now) }
{
    let mut mark = Vec::new(alloc);
    mark.extend_from_slice(b" @")?;
    mark.extend_from_slice(name)?;
    Ok(mark)
}

fn sent_of(alloc: Global, request: &[u8], mark: &[u8]) -> Result<Vec<u8>, AllocError>
    ensures { IfOk result (λ sent. sent.items ≡ request.now ++ (mark.now ++ 10 ∷ [])) }
{
    let mut sent = request.to_vec(alloc)?;
    sent.extend_from_slice(mark)?;
    sent.push(b'\n')?;
    Ok(sent)
}

// The request under this name.
pub(crate) fn ask(alloc: Global, options: &CallOptions, name: &[u8]) -> Result<Asking, AllocError>
    ensures { IfOk result (λ a. plan_in a ≡ plan_by options.now name.now) }
{
    let request = options.request.as_bytes();
    let mark = mark_of(alloc, name)?;
    let sent = sent_of(alloc, request, &mark)?;
    let most = if may_repeat(request) {
        options.times
    } else {
        1
    };
    Ok(Asking {
        sent,
        mark,
        waits: options.wait > 0,
        most,
    })
}
