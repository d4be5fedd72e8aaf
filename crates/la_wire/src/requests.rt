// Requests with names, and submissions under numbers.
ghost use Rattle.std.specs.Prelude.{◌≡◌, ◌+◌, ◌-◌, ◌==◌, ◌<◌, ◌≤◌, length, drop, position, true, false, MatchOption};
ghost use Rattle.std.specs.Prelude.{IfOk, option_map};
ghost use Rattle.std.specs.List.{list_all};
ghost use Rattle.la_wire.specs.Requests.{is_name_byte, is_name, is_of_peer, is_named_at, unnamed_in, name_in};
ghost use Rattle.la_wire.specs.Requests.{numbered_line, submission_line, numbered_by, numbered_in};

use crate::calls::{first_kind, is_known};
use la_script::{split_once, tag_of};
use std::alloc::{AllocError, Global};
use std::str;

/// How many bytes the name of a request may have.
pub const MAX_NAME: usize = 32;

/// The word that a submission begins with.
pub(crate) const SUBMIT: &[u8] = b"submit";

/// A line apart: what it calls for, and the name of the request.
#[derive(Clone, Copy)]
pub struct Request<'a> {
    /// The line without the name, and without the ` @` before it. It may be a submission under a number
    /// ([`numbered_in`]).
    pub call: &'a [u8],
    /// 1 to [`MAX_NAME`] letters, digits, `_`, `.`, `:` or `-`; empty, where the request has none.
    pub name: &'a str,
}

/// A submission under a number, apart.
#[derive(Drop)]
pub struct NumberedCall {
    /// Which of its replica's updates it is to be, from 1.
    pub number: u32,
    /// The line without the number, and without the full stop before it.
    pub plain: Vec<u8>,
}

fn is_name_byte(b: u8) -> bool
    ensures { result ≡ is_name_byte b }
{
    b.is_ascii_alphanumeric() || b == b'_' || b == b'.' || b == b':' || b == b'-'
}

fn are_name_bytes(bytes: &[u8]) -> bool
    ensures { result ≡ list_all is_name_byte bytes.now }
{
    bytes.iter().all(|b| is_name_byte(*b))
}

fn is_name(bytes: &[u8]) -> bool
    ensures { result ≡ is_name bytes.now }
{
    if bytes.is_empty() || bytes.len() > MAX_NAME {
        return false;
    }
    are_name_bytes(bytes)
}

// The name that bytes are.
#[tactic(auto, using(crate::proofs::RequestLines::name_is_text))]
fn name_of(bytes: &[u8]) -> Option<&str>
    ensures { MatchOption result (is_name bytes.now ≡ false)
        (λ name. (name.now ≡ bytes.now) × (is_name bytes.now ≡ true)) }
{
    if !is_name(bytes) {
        return None;
    }
    match str::from_utf8(bytes) {
        Ok(name) => Some(name),
        Err(_) => unreachable!(),
    }
}

// Where the call ends that stands before an `@`, and the name behind that.
fn apart_at(line: &[u8], at: usize) -> Option<(usize, &str)>
    requires { at < length line.now }
    ensures { MatchOption result (is_named_at line.now at ≡ false)
        (λ r. (r.0 ≡ at - 1) × (r.1.now ≡ drop (at + 1) line.now) × (is_named_at line.now at ≡ true)) }
{
    if at == 0 || line[at - 1] != b' ' {
        return None;
    }
    match name_of(&line[at + 1..]) {
        Some(name) => Some((at - 1, name)),
        None => None,
    }
}

// Where the first `@` is.
fn at_sign(line: &[u8]) -> Option<usize>
    ensures { result ≡ position (λ b. b == 64) line.now }
{
    line.iter().position(|b| *b == b'@')
}

// Whether a line is of another replica, by its first word.
pub(crate) fn is_of_peer(line: &[u8]) -> bool
    ensures { result ≡ is_of_peer line.now }
{
    first_kind(line).is_some() || is_known(line)
}

/// A line of a client apart, at its first `@`, where a space stands before that and a name behind it: else the line
/// calls for what it says as a whole, and has no name. The same holds of every line of another replica, of which only
/// the first word is looked at. It takes no memory, at a cost linear in the line.
pub fn request_in(line: &[u8]) -> Request<'_>
    ensures call { result.call.now ≡ unnamed_in line.now }
    ensures name { result.name.now ≡ name_in line.now }
    ensures short { length result.name.now ≤ MAX_NAME }
{
    let whole = Request {
        call: line,
        name: "",
    };
    if is_of_peer(line) {
        return whole;
    }
    let Some(at) = at_sign(line) else {
        return whole;
    };
    match apart_at(line, at) {
        Some((end, name)) => Request {
            call: &line[..end],
            name,
        },
        None => whole,
    }
}

// A submission by this word, and with the rest behind it.
fn submission_line(alloc: Global, word: &[u8], rest: &[u8]) -> Result<Vec<u8>, AllocError>
    ensures { IfOk result (λ line. line.items ≡ submission_line word.now rest.now) }
{
    let mut line = SUBMIT.to_vec(alloc)?;
    line.push(b' ')?;
    line.extend_from_slice(word)?;
    line.push(b' ')?;
    line.extend_from_slice(rest)?;
    Ok(line)
}

// A submission apart, by the word behind `submit`, and by the rest.
fn numbered_by(alloc: Global, word: &[u8], rest: &[u8]) -> Result<Option<NumberedCall>, AllocError>
    ensures { IfOk result (λ o. option_map numbered_line o ≡ numbered_by word.now rest.now) }
{
    let Some(id) = tag_of(word) else {
        return Ok(None);
    };
    let (replica, _) = split_once(word, b'.');
    Ok(Some(NumberedCall {
        number: id.number,
        plain: submission_line(alloc, replica, rest)?,
    }))
}

/// What a client calls for apart, where it is a submission under a number: `submit R.K ..`, with the id in place of
/// the replica's number. Any other line has none, nor does one with a word there that is no id, of which the fault is
/// found where the call is read. The cost is linear in the line, whose plain form takes memory.
#[tactic(auto, unfolding(crate::specs::Requests::numbered_in))]
pub fn numbered_in(alloc: Global, line: &[u8]) -> Result<Option<NumberedCall>, AllocError>
    ensures { IfOk result (λ o. option_map numbered_line o ≡ numbered_in line.now) }
{
    let (first, behind) = split_once(line, b' ');
    if first != SUBMIT {
        return Ok(None);
    }
    let (word, rest) = split_once(behind, b' ');
    numbered_by(alloc, word, rest)
}
