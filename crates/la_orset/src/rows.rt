ghost use Rattle.std.specs.Prelude.{◌≡◌, ℕ, [], Some, length, IsTrue, IfSome, IfOk, IfErr, OnOk, OnErr, is_some};
ghost use Rattle.std.specs.Option.{option_map};
ghost use Rattle.la_orset.specs.Rows.{known_row, at_number, live_element, named_known, IsAscending, IsAt, IsGapFor, IsPut};

use crate::packed_row::PackedRow;
use crate::vectors::{growth_of, insert_at};
use la_set::MAX_TAGS;
use std::alloc::{AllocError, Global};
use std::marker::Model;

/// A Put: its number among its replica's updates, whether a `Remove` named its id, and its element.
#[derive(Clone, Copy)]
pub struct Row {
    pub number: u32,
    pub gone: bool,
    pub element: u64,
}

/// What a `Remove` takes out: an element, and where its tag stands among the element's, which is a
/// hint alone.
#[derive(Clone, Copy)]
pub struct Named {
    pub element: u64,
    pub place: u32,
}

/// What was put under the ids of one replica, in ascending order of their numbers. Once a tag came
/// behind [`MAX_TAGS`] others of its element, it is noted beside each row where its tag stands, as a
/// hint alone. Fewer are soon gone through.
#[derive(Drop)]
pub struct Rows {
    rows: Vec<PackedRow>,
    places: Vec<u32>,
}

impl Model for Rows {
    ghost use Rattle.std.specs.Prelude.{List};
    ghost use Rattle.la_orset.specs.declared.rows.Row.{Row};
    ghost use Rattle.la_orset.specs.Rows.{IsAscending};

    ghost Value = { List Row };

    ghost view = { λ s. s.rows.items };

    ghost invariant = { λ s. IsAscending s.rows.items };
}

impl Rows {
    /// No rows, which take no memory.
    pub fn new(alloc: Global) -> Rows
        ensures { result ≡ [] }
    {
        Rows {
            rows: Vec::new(alloc),
            places: Vec::new(alloc),
        }
    }

    /// The rows, in ascending order.
    pub fn as_slice(&self) -> &[PackedRow]
        ensures rows { result.now ≡ self.now }
        ensures ascending { IsAscending self.now }
    {
        self.rows.as_slice()
    }

    /// Whether something was put under the number.
    pub fn has(&self, number: u32) -> bool
        ensures { result ≡ is_some (at_number self.now number) }
    {
        self.search(number).is_ok()
    }

    /// Puts a row in the place of the one with its number, or before those above, and notes where its
    /// tag stands. After a refusal nothing has changed.
    pub fn insert(&mut self, row: Row, place: u32) -> Result<(), AllocError>
        ensures ok { OnOk result (IsPut self.old row.number (Some (known_row row)) self.new) }
        ensures err { OnErr result (self.new ≡ self.old) }
    {
        match self.search(row.number) {
            Ok(at) => {
                self.rows[at] = PackedRow::new(row);
                Ok(())
            }
            Err(at) => {
                make_room(&mut self.rows)?;
                note(&mut self.places, self.rows.len(), at, place)?;
                insert_at(&mut self.rows, at, PackedRow::new(row))?;
                Ok(())
            }
        }
    }

    /// Notes that a `Remove` named the id with this number, and answers what was put under it,
    /// where none had named it.
    pub fn name(&mut self, number: u32) -> Option<Named>
        ensures answer { option_map (λ named. named.element) result
            ≡ live_element (at_number self.old number) }
        ensures named { IsPut self.old number (named_known (at_number self.old number)) self.new }
    {
        match self.search(number) {
            Ok(at) => {
                let row = self.rows[at].row();
                if row.gone {
                    return None;
                }
                self.rows[at] = PackedRow::new(Row {
                    number: row.number,
                    gone: true,
                    element: row.element,
                });
                Some(Named {
                    element: row.element,
                    place: place_at(self.places.as_slice(), at),
                })
            }
            Err(_) => None,
        }
    }

    /// Notes where the tag of the id with this number stands now.
    pub fn set_place(&mut self, number: u32, place: u32)
        ensures { self.new ≡ self.old }
    {
        let Ok(at) = self.search(number) else {
            return;
        };
        if at < self.places.len() {
            self.places[at] = place;
        }
    }

    // Where the row of a number is, or where it belongs.
    fn search(&self, number: u32) -> Result<usize, usize>
        ensures found { IfOk result (IsAt self.now number) }
        ensures absent { IfErr result (IsGapFor self.now number) }
        ensures ascending { IsAscending self.now }
    {
        if all_below(self.rows.as_slice(), number) {
            return Err(self.rows.len());
        }
        if let Some(place) = guess(self.rows.as_slice(), number) {
            return Ok(place);
        }
        self.rows.binary_search_by_key(&number, |row| row.number())
    }
}

// Room for one more: for 16, or for a quarter of what is there, or half where that is much.
fn make_room<T>(items: &mut Vec<T>) -> Result<(), AllocError>
    ensures { items.new.items ≡ items.old.items }
{
    let len = items.len();
    if len < items.capacity() {
        return Ok(());
    }
    let more = if len < 64 { 16 } else { growth_of(len) };
    items.reserve_exact(more)
}

// Notes where the tag of a row stands that is to come at a place among so many rows, where it is far
// or others are noted.
fn note(places: &mut Vec<u32>, rows: usize, at: usize, place: u32) -> Result<(), AllocError> {
    if places.is_empty() && (place as usize) < MAX_TAGS {
        return Ok(());
    }
    if places.len() < rows {
        places.resize(rows, 0)?;
    }
    make_room(places)?;
    if at > places.len() {
        return Ok(());
    }
    insert_at(places, at, place)
}

// The place that is noted of a row, or the first.
fn place_at(places: &[u32], at: usize) -> u32 {
    if at < places.len() { places[at] } else { 0 }
}

// Whether each number is below this one, by the last.
fn all_below(rows: &[PackedRow], number: u32) -> bool
    ensures { IsTrue result → IsAscending rows.now → IsGapFor rows.now number (length rows.now) }
{
    let len = rows.len();
    if len == 0 {
        return true;
    }
    rows[len - 1].number() < number
}

// Where a number is if those from the first on follow on one another.
fn guess(rows: &[PackedRow], number: u32) -> Option<usize>
    ensures { IfSome result (λ place. IsAt rows.now number place) }
{
    if rows.len() == 0 {
        return None;
    }
    let place = number.wrapping_sub(rows[0].number()) as usize;
    if place < rows.len() && rows[place].number() == number {
        return Some(place);
    }
    None
}
