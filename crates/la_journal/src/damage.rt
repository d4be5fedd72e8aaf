// What stands behind the groups of a file: what a crash left of a last group, or damage.
ghost use Rattle.std.specs.Prelude.{◌≡◌, ◌↔◌, ◌++◌, ◌∷◌, [], ℕ, ◌+◌, ◌-◌, ◌*◌, ◌^◌, ◌<◌, ◌≤◌, List, length, take, drop, reverse, Some, None, IfSome, IsTrue};
ghost use Rattle.std.specs.Fmt.{decimal};
ghost use Rattle.la_journal.specs.Lines.{file_of};
ghost use Rattle.la_journal.specs.Commits.{HasNoEnd};
ghost use Rattle.la_journal.specs.Records.{ended, unended, number_from, stated_link, IsRecordOfLast, HasRecord, IsRunOn, IsGroupDamage};

use crate::grouped::{begins_record, line_end};
use crate::records::{DIGITS, after, is_record_of, link};

/// Whether what stands behind the groups of a file is damage, and not what a crash left of a last group: a group
/// stands in it, or a record with something behind it. Linear in the bytes, and in those of the lines that records
/// claim.
pub fn is_damage(tail: &[u8]) -> bool
    ensures { IsTrue result ↔ IsGroupDamage tail.now }
{
    goes_on(tail) || has_record(tail)
}

/// Whether lines stand somewhere in these bytes with the record of just these lines behind them. Which record stood
/// before them is not asked. Linear in the bytes, and in those of the lines that records claim.
pub fn has_record(tail: &[u8]) -> bool
    ensures { IsTrue result ↔ HasRecord tail.now }
{
    let mut at = 0;
    while let Some(line) = line_at(tail, at) {
        if is_of_last(&tail[..at], line) {
            return true;
        }
        at += line.len() + 1;
    }
    false
}

/// Whether a line that begins as a record has a line behind it.
fn goes_on(tail: &[u8]) -> bool
    ensures { IsTrue result ↔ IsRunOn (ended tail.now) }
{
    let mut at = 0;
    while let Some(line) = line_at(tail, at) {
        let next = at + line.len() + 1;
        if begins_record(line) && line_at(tail, next).is_some() {
            return true;
        }
        at = next;
    }
    false
}

/// The line that begins at a place; `None` where none has an end from there on.
fn line_at(bytes: &[u8], at: usize) -> Option<&[u8]>
    requires { at ≤ length bytes.now }
    ensures within { IfSome result (λ line. at + length line.now < length bytes.now) }
    ensures line { IfSome result (λ line. ended (drop at bytes.now)
        ≡ line.now ∷ ended (drop (at + (length line.now + 1)) bytes.now)) }
    ensures front { IfSome result (λ line. unended (take at bytes.now) ≡ []
        → ended (take (at + (length line.now + 1)) bytes.now) ≡ ended (take at bytes.now) ++ line.now ∷ []) }
    ensures whole { IfSome result (λ line. unended (take (at + (length line.now + 1)) bytes.now) ≡ []) }
    ensures none { result ≡ None → ended (drop at bytes.now) ≡ [] }
{
    let (_, rest) = bytes.split_at(at);
    match line_end(rest) {
        Some(n) => Some(&rest[..n]),
        None => None,
    }
}

/// Whether a line is the record of some last lines of those before it.
fn is_of_last(before: &[u8], line: &[u8]) -> bool
    requires { unended before.now ≡ [] }
    ensures { IsTrue result ↔ IsRecordOfLast (reverse (ended before.now)) line.now }
{
    let Some(count) = count_of(line) else {
        return false;
    };
    match last_lines(before, count) {
        Some(lines) => is_record_of(line, count, stated_link(line), lines),
        None => false,
    }
}

/// The digest of what stood before, as a record states it.
fn stated_link(line: &[u8]) -> &[u8]
    ensures { result.now ≡ stated_link line.now }
{
    link(&line[..line.len().saturating_sub(DIGITS + 1)])
}

/// How many lines a record states that it has; `None` where it does not, or too many to be there.
fn count_of(line: &[u8]) -> Option<usize>
    ensures { (n : ℕ) (rest : List ℕ) → n < 2 ^ 64 → line.now ≡ 126 ∷ 32 ∷ (decimal n ++ 32 ∷ rest) → result ≡ Some n }
{
    number(after(line, b"~ ")?)
}

/// The number that the digits in front spell, where something stands behind them and it fits.
fn number(bytes: &[u8]) -> Option<usize>
    ensures some { IfSome result (λ n. number_from 0 bytes.now ≡ Some n) }
    ensures none { result ≡ None → (n : ℕ) → number_from 0 bytes.now ≡ Some n → 2 ^ 64 ≤ n }
{
    let mut count = 0;
    for b in bytes {
        if !b.is_ascii_digit() {
            return Some(count);
        }
        count = with_digit(count, *b)?;
    }
    None
}

fn with_digit(count: usize, digit: u8) -> Option<usize>
    ensures some { IfSome result (λ n. n ≡ count * 10 + (digit - 48)) }
    ensures none { result ≡ None → 2 ^ 64 ≤ count * 10 + (digit - 48) }
{
    count
        .checked_mul(10)?
        .checked_add(usize::from(digit.saturating_sub(b'0')))
}

/// The last so many of whole lines; `None` where they are fewer.
fn last_lines(before: &[u8], count: usize) -> Option<&[u8]>
    requires { unended before.now ≡ [] }
    ensures some { IfSome result (λ lines. lines.now ≡ file_of (reverse (take count (reverse (ended before.now))))) }
    ensures enough { IfSome result (λ _. count ≤ length (ended before.now)) }
    ensures none { result ≡ None → length (ended before.now) < count }
{
    let mut at = before.len();
    for i in 0..count {
        at = last_line(&before[..at])?;
    }
    let (_, lines) = before.split_at(at);
    Some(lines)
}

/// Where the last of whole lines begins; `None` where there is none.
fn last_line(bytes: &[u8]) -> Option<usize>
    requires { unended bytes.now ≡ [] }
    ensures within { IfSome result (λ at. at < length bytes.now) }
    ensures whole { IfSome result (λ at. unended (take at bytes.now) ≡ []) }
    ensures last { IfSome result (λ at. ended bytes.now
        ≡ ended (take at bytes.now) ++ take (length bytes.now - 1 - at) (drop at bytes.now) ∷ []) }
    ensures end { IfSome result (λ at. drop at bytes.now
        ≡ take (length bytes.now - 1 - at) (drop at bytes.now) ++ 10 ∷ []) }
    ensures none { result ≡ None → bytes.now ≡ [] }
{
    let mut at = bytes.len().checked_sub(1)?;
    while at > 0 && bytes[at - 1] != b'\n' {
        at -= 1;
    }
    Some(at)
}
