// Marks: what comes next in a text in pieces.
ghost use Rattle.std.specs.Prelude.{◌≡◌, [], ◌∷◌, ◌++◌, length, take, OnOk, OnErr};
ghost use Rattle.la_script.specs.Marks.{AddsRuns, AddsMark};

use std::alloc::AllocError;

// The most words that a mark names.
const LONGEST: usize = 255;

// For how many marks, and numbers, there is room at first.
const ROOM: usize = 128;

/// What comes next in a text in pieces. Words and numbers are taken from the front of those that
/// are left.
#[derive(Clone, Copy)]
pub enum Mark {
    /// The next words, as many as this, one at least.
    Words(u8),
    /// A replica's first ids, as many as the next number says.
    Ids(u8),
    /// A replica's ids behind other ids: with a space before each.
    MoreIds(u8),
    /// The line of a reply that counts; the next number is the line's.
    Counted,
    /// The line of a reply that does not count; the next number is the line's.
    Ignored,
    /// The line of a tell that leaves the view; the next number is the line's.
    Kept,
    /// The line of an acknowledged offer; the next two numbers are the line's and the reply's.
    Yes,
}

/// A line of few words: what it says behind its number.
#[derive(Clone, Copy)]
pub enum Plain {
    /// A reply counts.
    Counted,
    /// A reply does not count.
    Ignored,
    /// A tell leaves the view.
    Kept,
    /// An offer is acknowledged, by the message of this number.
    Yes(u32),
}

// Marks so many words, in runs. Where memory is refused only some of them have a mark.
#[inline(always)]
fn mark_words(marks: &mut Vec<Mark>, count: usize) -> Result<(), AllocError>
    ensures kept { take (length marks.old.items) marks.new.items ≡ marks.old.items }
    ensures runs { OnOk result (AddsRuns count marks.old.items marks.new.items) }
{
    let mut left = count;
    while left > 0 {
        let run = left.min(LONGEST);
        marks.push(Mark::Words(run as u8))?;
        left -= run;
    }
    Ok(())
}

// The same, and then a mark with its numbers.
#[inline(always)]
fn put_marks(
    marks: &mut Vec<Mark>,
    numbers: &mut Vec<u32>,
    words: usize,
    mark: Mark,
    more: &[u32],
) -> Result<(), AllocError>
    ensures kept_marks { take (length marks.old.items) marks.new.items ≡ marks.old.items }
    ensures kept_numbers { take (length numbers.old.items) numbers.new.items ≡ numbers.old.items }
    ensures mark { OnOk result (AddsMark words mark marks.old.items marks.new.items) }
    ensures numbers { OnOk result (numbers.new.items ≡ numbers.old.items ++ more.now) }
{
    mark_words(marks, words)?;
    marks.push(mark)?;
    numbers.extend_from_slice(more)
}

/// Makes room for some lines at once, so that the lists need not grow at each of a text's first ones.
pub fn make_room(marks: &mut Vec<Mark>, numbers: &mut Vec<u32>) -> Result<(), AllocError>
    ensures marks { marks.new.items ≡ marks.old.items }
    ensures numbers { numbers.new.items ≡ numbers.old.items }
{
    marks.reserve(ROOM)?;
    numbers.reserve(ROOM)
}

/// Marks so many words, and then adds a mark with its numbers. Where memory is refused nothing
/// changes.
#[inline(always)]
pub fn add_mark(
    marks: &mut Vec<Mark>,
    numbers: &mut Vec<u32>,
    words: usize,
    mark: Mark,
    more: &[u32],
) -> Result<(), AllocError>
    ensures mark { OnOk result (AddsMark words mark marks.old.items marks.new.items) }
    ensures numbers { OnOk result (numbers.new.items ≡ numbers.old.items ++ more.now) }
    ensures same_marks { OnErr result (marks.new.items ≡ marks.old.items) }
    ensures same_numbers { OnErr result (numbers.new.items ≡ numbers.old.items) }
{
    let (before, given) = (marks.len(), numbers.len());
    if put_marks(marks, numbers, words, mark, more).is_err() {
        marks.truncate(before);
        numbers.truncate(given);
        return Err(AllocError);
    }
    Ok(())
}
