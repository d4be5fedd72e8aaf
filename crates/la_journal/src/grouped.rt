// Groups of whole lines, each with its record behind it.
ghost use Rattle.std.specs.Prelude.{◌≡◌, ◌≢◌, ◌++◌, ◌∷◌, [], ◌+◌, ◌<◌, ◌≤◌, length, take, drop, Some, None, IfSome};
ghost use Rattle.la_journal.specs.Commits.{is_record, groups, HasNoEnd};
ghost use Rattle.la_journal.specs.Records.{link, record_line, parts, parts_behind};

use crate::records::{end_count, is_record_of, link, text_of_head};

/// A group of whole lines, its record without the line's end, and what stands behind that line.
#[derive(Clone, Copy)]
pub struct Group<'a> {
    pub lines: &'a [u8],
    pub record: &'a [u8],
    pub rest: &'a [u8],
}

/// The head that a file begins with: its text, its line without the end, and what stands behind that line.
#[derive(Clone, Copy)]
pub struct Head<'a> {
    pub text: &'a [u8],
    pub line: &'a [u8],
    pub rest: &'a [u8],
}

/// The head that a file begins with; `None` where its first line is none, or it has no line. Linear in that line.
pub fn head_of(file: &[u8]) -> Option<Head<'_>>
    ensures some { IfSome result (λ head. parts file.now
        ≡ Some (parts_behind head.text.now head.line.now head.rest.now)) }
    ensures bytes { IfSome result (λ head. file.now ≡ head.line.now ++ 10 ∷ head.rest.now) }
    ensures linked { IfSome result (λ head. length (link head.line.now) ≡ 16) }
    ensures none { result ≡ None → parts file.now ≡ None }
{
    let n = line_end(file)?;
    let line = &file[..n];
    Some(Head {
        text: text_of_head(line)?,
        line,
        rest: &file[n + 1..],
    })
}

/// The first group that these bytes have behind a line, a head or another record; `None` where none is read:
/// where the first line that begins as a record is not that of what stands before it, or there is none. Linear in
/// what it reads.
pub fn next_group<'a>(bytes: &'a [u8], before: &[u8]) -> Option<Group<'a>>
    ensures parts { IfSome result (λ g. bytes.now ≡ g.lines.now ++ (g.record.now ++ 10 ∷ g.rest.now)) }
    ensures record { IfSome result (λ g. g.record.now ≡ record_line before.now g.lines.now) }
    ensures some { IfSome result (λ g. groups record_line before.now bytes.now
        ≡ g.lines.now ∷ groups record_line g.record.now g.rest.now) }
    ensures none { result ≡ None → groups record_line before.now bytes.now ≡ [] }
{
    let mut at = 0;
    while let Some(n) = line_end(&bytes[at..]) {
        if begins_record(&bytes[at..at + n]) {
            return group_at(bytes, before, at, n);
        }
        at += n + 1;
    }
    None
}

/// The group up to this place, where the line of so many bytes that is there is its record.
fn group_at<'a>(bytes: &'a [u8], before: &[u8], at: usize, n: usize) -> Option<Group<'a>>
    requires { at + n < length bytes.now }
    ensures lines { IfSome result (λ g. g.lines.now ≡ take at bytes.now) }
    ensures place { IfSome result (λ g. g.record.now ≡ take n (drop at bytes.now)) }
    ensures rest { IfSome result (λ g. g.rest.now ≡ drop (n + 1) (drop at bytes.now)) }
    ensures record { IfSome result (λ g. take n (drop at bytes.now) ≡ record_line before.now (take at bytes.now)) }
    ensures none { result ≡ None → take n (drop at bytes.now) ≢ record_line before.now (take at bytes.now) }
{
    let (lines, behind) = bytes.split_at(at);
    let record = &behind[..n];
    if is_record_of(record, end_count(lines), link(before), lines) {
        Some(Group {
            lines,
            record,
            rest: &behind[n + 1..],
        })
    } else {
        None
    }
}

/// Whether a line begins as a record does.
pub(crate) fn begins_record(line: &[u8]) -> bool
    ensures { result ≡ is_record line.now }
{
    match line.first() {
        Some(first) => *first == b'~',
        None => false,
    }
}

/// Where the first line ends; `None` where no line has an end.
pub(crate) fn line_end(bytes: &[u8]) -> Option<usize>
    ensures within { IfSome result (λ n. n < length bytes.now) }
    ensures split { IfSome result (λ n. bytes.now ≡ take n bytes.now ++ 10 ∷ drop (n + 1) bytes.now) }
    ensures line { IfSome result (λ n. HasNoEnd (take n bytes.now)) }
    ensures none { result ≡ None → HasNoEnd bytes.now }
{
    for n in 0..bytes.len() {
        if bytes[n] == b'\n' {
            return Some(n);
        }
    }
    None
}
