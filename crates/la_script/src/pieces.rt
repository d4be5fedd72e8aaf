ghost use Rattle.std.specs.Prelude.{◌≡◌, ◌<◌, ◌∷◌, [], IfOk, OnOk};
ghost use Rattle.std.specs.Fmt.{decimal, signed_decimal};
ghost use Rattle.std.specs.Str.{IsUtf8};
ghost use Rattle.la_set.specs.declared.set.TheConstants.{REPLICAS};
ghost use Rattle.la_script.specs.Pieces.{front, AddsText};
ghost use Rattle.la_script.specs.Plain.{plain_line};
ghost use Rattle.la_script.specs.Marks.{ids_mark, mark_text, IsLine};

use crate::Text;
use crate::id_text::IdText;
use crate::marks::{Mark, Plain, add_mark, make_room};
use crate::walk::Walk;
use itoa::Buffer;
use std::alloc::{AllocError, Global};
use std::marker::Model;

// Texts of ids with fewer bytes are copied, so that no piece is small.
const SHORT: usize = 32;

/// A text in pieces: words, ids of one replica, and lines of few words.
///
/// It takes memory for the words, some six bytes for a text of ids and for a line of few words, and
/// the longest text of ids of each replica; not for each text of ids.
#[derive(Drop)]
pub struct Pieces {
    marks: Vec<Mark>,
    words: Vec<u8>,
    numbers: Vec<u32>,
    // How many of the words have a mark: the others come behind all that has one.
    marked: usize,
    // The text of each replica's ids.
    ids: [IdText; 8],
}

impl Model for Pieces {
    ghost use Rattle.std.specs.Prelude.{ℕ, List};

    // The text.
    ghost Value = { List ℕ };

    ghost use Rattle.la_script.specs.Laid.{laid_text, IsLaid};

    ghost view = { λ p. laid_text p.marks.items p.words.items p.numbers.items };

    ghost invariant = { λ p. IsLaid p.marks.items p.words.items p.numbers.items p.marked p.ids };
}

// The mark of ids.
fn ids_mark(behind: bool, replica: u8) -> Mark
    ensures { result ≡ ids_mark behind replica }
{
    if behind {
        Mark::MoreIds(replica)
    } else {
        Mark::Ids(replica)
    }
}

impl Pieces {
    /// The empty text, which takes no memory.
    pub fn new(alloc: Global) -> Pieces
        ensures { result ≡ [] }
    {
        Pieces {
            marks: Vec::new(alloc),
            words: Vec::new(alloc),
            numbers: Vec::new(alloc),
            marked: 0,
            ids: [
                IdText::new(alloc, 0),
                IdText::new(alloc, 1),
                IdText::new(alloc, 2),
                IdText::new(alloc, 3),
                IdText::new(alloc, 4),
                IdText::new(alloc, 5),
                IdText::new(alloc, 6),
                IdText::new(alloc, 7),
            ],
        }
    }

    // Makes room for some lines.
    pub(crate) fn reserve_lines(&mut self) -> Result<(), AllocError>
        ensures { self.new ≡ self.old }
    {
        make_room(&mut self.marks, &mut self.numbers)
    }

    /// Adds words. The refusal, as that of the other additions, is for want of memory, and leaves no
    /// text to go on with.
    #[inline(always)]
    pub fn push_str(&mut self, words: &str) -> Result<(), AllocError>
        ensures { OnOk result (AddsText self.old self.new words.now) }
    {
        self.words.extend_from_slice(words.as_bytes())
    }

    // Adds a letter of ASCII.
    #[inline(always)]
    pub(crate) fn push_ascii(&mut self, letter: u8) -> Result<(), AllocError>
        requires { letter < 128 }
        ensures { OnOk result (AddsText self.old self.new (letter ∷ [])) }
    {
        self.words.push(letter)?;
        Ok(())
    }

    /// Adds a number in decimal.
    #[inline(always)]
    pub fn push_number(&mut self, number: u64) -> Result<(), AllocError>
        ensures { OnOk result (AddsText self.old self.new (decimal number)) }
    {
        self.push_str(Buffer::new().format(number))
    }

    // Adds a number that may be below zero.
    pub(crate) fn push_signed(&mut self, number: i64) -> Result<(), AllocError>
        ensures { OnOk result (AddsText self.old self.new (signed_decimal number)) }
    {
        self.push_str(Buffer::new().format(number))
    }

    // Adds the ids of a replica's first updates, with a space before each where they stand behind
    // other ids. The cost is constant but for ids that no text had yet.
    pub(crate) fn push_ids(
        &mut self,
        behind: bool,
        replica: u8,
        count: u32,
    ) -> Result<(), AllocError>
        requires { replica < REPLICAS }
        ensures { OnOk result (AddsText self.old self.new (front behind replica count)) }
    {
        if count == 0 {
            return Ok(());
        }
        let kept = &mut self.ids[replica as usize];
        kept.grow(count as usize)?;
        let ids = kept.front(behind, count as usize);
        if ids.len() < SHORT {
            return self.words.extend_from_slice(ids);
        }
        let mark = ids_mark(behind, replica);
        let words = self.words.len() - self.marked;
        add_mark(&mut self.marks, &mut self.numbers, words, mark, &[count])?;
        self.marked = self.words.len();
        Ok(())
    }

    // Adds a mark of a line with its numbers.
    #[inline(always)]
    fn push_line(&mut self, mark: Mark, numbers: &[u32]) -> Result<(), AllocError>
        requires line { IsLine mark numbers.now }
        requires text { IsUtf8 (mark_text mark [] numbers.now) }
        ensures { OnOk result (AddsText self.old self.new (mark_text mark [] numbers.now)) }
    {
        let words = self.words.len() - self.marked;
        add_mark(&mut self.marks, &mut self.numbers, words, mark, numbers)?;
        self.marked = self.words.len();
        Ok(())
    }

    // Adds a line of few words, at constant cost, and no text of it.
    #[inline(always)]
    pub(crate) fn push_plain(&mut self, number: u32, line: Plain) -> Result<(), AllocError>
        ensures { OnOk result (AddsText self.old self.new (plain_line number line)) }
    {
        match line {
            Plain::Counted => self.push_line(Mark::Counted, &[number]),
            Plain::Ignored => self.push_line(Mark::Ignored, &[number]),
            Plain::Kept => self.push_line(Mark::Kept, &[number]),
            Plain::Yes(message) => self.push_line(Mark::Yes, &[number, message]),
        }
    }

    /// A walk along the text, from its start, which takes no memory.
    pub fn walk(&self) -> Walk<'_>
        ensures { result ≡ self.now }
    {
        Walk::new(&self.marks, &self.words, &self.numbers, &self.ids)
    }

    // The pieces joined, at linear cost.
    pub(crate) fn join(&self, alloc: Global) -> Result<Text, AllocError>
        ensures { IfOk result (λ text. text ≡ self.now) }
    {
        // A hint to the prover: with a field its invariant is read, by which the text is UTF-8.
        let _ = &self.words;
        let mut text = Vec::new(alloc);
        let mut walk = self.walk();
        while let Some(piece) = walk.next() {
            text.extend_from_slice(piece.bytes())?;
        }
        match String::from_utf8(text) {
            Ok(text) => Ok(Text::from(text)),
            Err(_) => unreachable!(),
        }
    }
}
