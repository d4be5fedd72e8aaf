// Walks along a text in pieces.
ghost use Rattle.std.specs.Prelude.{
  ◌≡◌,
  ◌<◌,
  ◌≤◌,
  ◌++◌,
  [],
  ◌∷◌,
  drop,
  take,
  length,
  slice_index,
  IfNone,
  IfSome,
};
ghost use Rattle.la_script.specs.Pieces.{front};
ghost use Rattle.arrayvec.specs.ArrayString.{array_string_len};
ghost use Rattle.la_script.specs.Plain.{plain_text, plain_line};
ghost use Rattle.la_script.specs.Marks.{mark_words, numbers_of, mark_text};
ghost use Rattle.la_script.specs.Laid.{laid_text, AreIds, IsReadyMark, IsWalked, AreOwn};
ghost use Rattle.la_script.specs.Walks.{piece_bytes};

use crate::id_text::IdText;
use crate::marks::{Mark, Plain};
use arrayvec::ArrayString;
use itoa::Buffer;
use std::marker::Model;

/// A line of few words: a number of 32 bits, ` yes m`, another one, and the end of the line.
pub type PlainLine = ArrayString<27>;

/// A piece of a text.
#[derive(Drop)]
pub enum Piece<'a> {
    /// Words, or ids, which lie in a text that many pieces share.
    Lent(&'a [u8]),
    /// A line of few words, which is written down as the walk comes to it.
    Made(PlainLine),
}

impl Piece<'_> {
    /// The bytes of the piece.
    pub fn bytes(&self) -> &[u8]
        ensures { result.now ≡ piece_bytes self.now }
    {
        match self {
            Piece::Lent(bytes) => bytes,
            Piece::Made(line) => line.as_str().as_bytes(),
        }
    }
}

/// A walk along a text in pieces: the text that is left.
#[derive(Drop)]
pub struct Walk<'a> {
    marks: &'a [Mark],
    words: &'a [u8],
    numbers: &'a [u32],
    ids: &'a [IdText; 8],
}

impl<'a> Model for Walk<'a> {
    ghost use Rattle.std.specs.Prelude.{ℕ, List};

    ghost Value = { List ℕ };

    ghost use Rattle.la_script.specs.Laid.{laid_text, IsWalked};

    ghost view = { λ w. laid_text w.marks.now w.words.now w.numbers.now };

    ghost invariant = { λ w. IsWalked w.marks.now w.words.now w.numbers.now w.ids.now };
}

// What a line of few words says behind its number.
#[inline(always)]
fn put_plain(line: &mut PlainLine, plain: Plain)
    requires { array_string_len line.old ≤ 11 }
    ensures text { line.new.bytes ≡ line.old.bytes ++ plain_text plain }
    ensures room { array_string_len line.new ≤ 26 }
{
    match plain {
        Plain::Counted => line.push_str("counted"),
        Plain::Ignored => line.push_str("ignored"),
        Plain::Kept => line.push_str("kept"),
        Plain::Yes(message) => {
            line.push_str("yes m");
            line.push_str(Buffer::new().format(message));
        }
    }
}

// A line of few words, written down.
#[inline(always)]
fn line_of(number: u32, plain: Plain) -> PlainLine
    ensures { result.bytes ≡ plain_line number plain }
{
    let mut line = PlainLine::new();
    line.push_str(Buffer::new().format(number));
    line.push_str(" ");
    put_plain(&mut line, plain);
    line.push_str("\n");
    line
}

// A piece, and the words and the numbers that are left behind it.
#[derive(Drop)]
struct Taken<'a> {
    piece: Piece<'a>,
    words: &'a [u8],
    numbers: &'a [u32],
}

// So many of the words.
#[inline(always)]
fn take_words<'a>(words: &'a [u8], numbers: &'a [u32], count: usize) -> Taken<'a>
    requires { count ≤ length words.now }
    ensures piece { piece_bytes result.piece ≡ take count words.now }
    ensures words { result.words.now ≡ drop count words.now }
    ensures numbers { result.numbers.now ≡ numbers.now }
{
    let (piece, words) = words.split_at(count);
    Taken {
        piece: Piece::Lent(piece),
        words,
        numbers,
    }
}

// A replica's first ids, as many as the next number says.
#[inline(always)]
fn take_ids<'a>(
    words: &'a [u8],
    numbers: &'a [u32],
    ids: &'a [IdText; 8],
    behind: bool,
    replica: u8,
) -> Taken<'a>
    requires some { 1 ≤ length numbers.now }
    requires ready { AreIds ids.now replica (slice_index numbers.now 0) }
    requires own { AreOwn ids.now }
    ensures piece { piece_bytes result.piece ≡ front behind replica (slice_index numbers.now 0) }
    ensures words { result.words.now ≡ words.now }
    ensures numbers { result.numbers.now ≡ drop 1 numbers.now }
{
    let (first, numbers) = numbers.split_at(1);
    let kept = &ids[replica as usize];
    Taken {
        piece: Piece::Lent(kept.front(behind, first[0] as usize)),
        words,
        numbers,
    }
}

// A line that has the next number.
#[inline(always)]
fn take_line<'a>(words: &'a [u8], numbers: &'a [u32], plain: Plain) -> Taken<'a>
    requires { 1 ≤ length numbers.now }
    ensures piece { piece_bytes result.piece ≡ plain_line (slice_index numbers.now 0) plain }
    ensures words { result.words.now ≡ words.now }
    ensures numbers { result.numbers.now ≡ drop 1 numbers.now }
{
    let (first, numbers) = numbers.split_at(1);
    Taken {
        piece: Piece::Made(line_of(first[0], plain)),
        words,
        numbers,
    }
}

// The line of an acknowledged offer, which has the next two numbers.
#[inline(always)]
fn take_yes<'a>(words: &'a [u8], numbers: &'a [u32]) -> Taken<'a>
    requires { 2 ≤ length numbers.now }
    ensures piece { piece_bytes result.piece
        ≡ plain_line (slice_index numbers.now 0) (Plain.Yes (slice_index numbers.now 1)) }
    ensures words { result.words.now ≡ words.now }
    ensures numbers { result.numbers.now ≡ drop 2 numbers.now }
{
    let (first, numbers) = numbers.split_at(2);
    Taken {
        piece: Piece::Made(line_of(first[0], Plain::Yes(first[1]))),
        words,
        numbers,
    }
}

// What a mark stands for.
#[inline(always)]
fn take_piece<'a>(
    mark: Mark,
    words: &'a [u8],
    numbers: &'a [u32],
    ids: &'a [IdText; 8],
) -> Taken<'a>
    requires ready { IsReadyMark ids.now mark words.now numbers.now }
    requires own { AreOwn ids.now }
    ensures piece { piece_bytes result.piece ≡ mark_text mark words.now numbers.now }
    ensures words { result.words.now ≡ drop (mark_words mark) words.now }
    ensures numbers { result.numbers.now ≡ drop (numbers_of mark) numbers.now }
{
    match mark {
        Mark::Words(count) => take_words(words, numbers, count as usize),
        Mark::Ids(replica) => take_ids(words, numbers, ids, false, replica),
        Mark::MoreIds(replica) => take_ids(words, numbers, ids, true, replica),
        Mark::Counted => take_line(words, numbers, Plain::Counted),
        Mark::Ignored => take_line(words, numbers, Plain::Ignored),
        Mark::Kept => take_line(words, numbers, Plain::Kept),
        Mark::Yes => take_yes(words, numbers),
    }
}

// The words that no mark takes, where there are some.
#[inline(always)]
fn last_piece(words: &[u8]) -> Option<Piece<'_>>
    ensures some { IfSome result (λ piece. piece_bytes piece ≡ words.now) }
    ensures bytes { IfSome result (λ piece. 0 < length (piece_bytes piece)) }
    ensures none { IfNone result (words.now ≡ []) }
{
    if words.is_empty() {
        None
    } else {
        Some(Piece::Lent(words))
    }
}

impl<'a> Walk<'a> {
    // A walk along all that is there.
    pub(crate) fn new(
        marks: &'a [Mark],
        words: &'a [u8],
        numbers: &'a [u32],
        ids: &'a [IdText; 8],
    ) -> Walk<'a>
        requires { IsWalked marks.now words.now numbers.now ids.now }
        ensures { result ≡ laid_text marks.now words.now numbers.now }
    {
        Walk {
            marks,
            words,
            numbers,
            ids,
        }
    }

    /// The next piece of what is left, which is not empty, at constant cost: a line of few words is
    /// written down, anything else is lent. There is none exactly where nothing is left.
    #[inline(always)]
    pub fn next(&mut self) -> Option<Piece<'a>>
        ensures some { IfSome result (λ piece. self.old ≡ piece_bytes piece ++ self.new) }
        ensures bytes { IfSome result (λ piece. 0 < length (piece_bytes piece)) }
        ensures none { IfNone result (self.old ≡ []) }
        ensures end { IfNone result (self.new ≡ []) }
    {
        let Some((mark, marks)) = self.marks.split_first() else {
            let words = self.words;
            self.words = &[];
            return last_piece(words);
        };
        let Taken {
            piece,
            words,
            numbers,
        } = take_piece(*mark, self.words, self.numbers, self.ids);
        self.marks = marks;
        self.words = words;
        self.numbers = numbers;
        Some(piece)
    }
}
