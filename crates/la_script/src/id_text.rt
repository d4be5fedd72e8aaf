// The text of one replica's first ids, which is kept ready.
ghost use Rattle.std.specs.Prelude.{◌≡◌, ℕ, ◌+◌, ◌<◌, ◌≤◌, ◌++◌, [], ◌∷◌, true, codes, length, OnOk, OnErr};
ghost use Rattle.la_script.specs.Text.{id_text};
ghost use Rattle.la_script.specs.Pieces.{front};

use arrayvec::ArrayString;
use itoa::Buffer;
use std::alloc::{AllocError, Global};
use std::marker::Model;

// A space, a number of 8 bits, a full stop and one of 64 bits.
type IdPiece = ArrayString<25>;

/// The ids of a replica's first updates as one text, ` r.1 r.2 r.3 ..`, each front of which is at
/// hand.
#[derive(Drop)]
pub struct IdText {
    replica: u8,
    text: Vec<u8>,
    // Where each id ends.
    ends: Vec<u32>,
}

impl Model for IdText {
    ghost use Rattle.std.specs.Prelude.{ℕ, length};

    // Whose ids they are, and how many.
    ghost Value = { ℕ × ℕ };

    ghost use Rattle.la_script.specs.Laid.{IsIdText};

    ghost view = { λ t. (t.replica, length t.ends.items) };

    ghost invariant = { λ t. IsIdText t.replica t.text.items t.ends.items };
}

// An id, with a space before it.
fn piece_of(replica: u8, number: usize) -> IdPiece
    ensures { result.bytes ≡ codes " " ++ id_text (record { replica = replica; number = number }) }
{
    let mut piece = IdPiece::new();
    piece.push_str(" ");
    piece.push_str(Buffer::new().format(replica));
    piece.push_str(".");
    piece.push_str(Buffer::new().format(number));
    piece
}

// Adds where an id ends: refused also where that is 2^32 or more.
fn push_end(ends: &mut Vec<u32>, end: usize) -> Result<(), AllocError>
    ensures ok { OnOk result (ends.new.items ≡ ends.old.items ++ end ∷ []) }
    ensures err { OnErr result (ends.new.items ≡ ends.old.items) }
{
    let Ok(end) = u32::try_from(end) else {
        return Err(AllocError);
    };
    ends.push(end)?;
    Ok(())
}

impl IdText {
    /// No id of this replica, which takes no memory.
    pub fn new(alloc: Global, replica: u8) -> IdText
        ensures { result ≡ (replica, 0) }
    {
        IdText {
            replica,
            text: Vec::new(alloc),
            ends: Vec::new(alloc),
        }
    }

    /// Goes on to so many ids, if there are fewer. The cost is linear in those that are added.
    pub fn grow(&mut self, count: usize) -> Result<(), AllocError>
        ensures same { self.new.0 ≡ self.old.0 }
        ensures more { self.old.1 ≤ self.new.1 }
        ensures enough { OnOk result (count ≤ self.new.1) }
    {
        let first = self.len();
        for number in first..count {
            self.add(number + 1)?;
        }
        Ok(())
    }

    /// The text of the first ids, as many as are said, at constant cost. Where it stands behind
    /// other ids it begins with a space.
    pub fn front(&self, behind: bool, count: usize) -> &[u8]
        requires { count ≤ self.now.1 }
        ensures { result.now ≡ front behind self.now.0 count }
    {
        if count == 0 {
            return &[];
        }
        let ids = self.first(count);
        if behind { ids } else { &ids[1..] }
    }

    // The same, with the space.
    fn first(&self, count: usize) -> &[u8]
        requires some { 0 < count }
        requires kept { count ≤ self.now.1 }
        ensures ids { result.now ≡ front true self.now.0 count }
        ensures some { 0 < length result.now }
    {
        &self.text[..self.ends[count - 1] as usize]
    }

    fn len(&self) -> usize
        ensures { result ≡ self.now.1 }
    {
        self.ends.len()
    }

    // Adds the next id. Where memory is refused nothing changes.
    fn add(&mut self, number: usize) -> Result<(), AllocError>
        requires { number ≡ self.old.1 + 1 }
        ensures ok { OnOk result (self.new ≡ (self.old.0, number)) }
        ensures err { OnErr result (self.new ≡ self.old) }
    {
        let before = self.text.len();
        let piece = piece_of(self.replica, number);
        self.text.extend_from_slice(piece.as_str().as_bytes())?;
        if push_end(&mut self.ends, self.text.len()).is_err() {
            self.text.truncate(before);
            return Err(AllocError);
        }
        Ok(())
    }
}
