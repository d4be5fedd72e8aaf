ghost use Rattle.std.specs.Prelude.{◌≡◌, ◌↔◌, ◌≤◌, length, map as list_map, is_none, IsTrue, IfOk, OnOk, OnErr};
ghost use Rattle.std.specs.Option.{option_map};
ghost use Rattle.std.specs.FinMap as map;
ghost use Rattle.la_orset.specs.Rows.{known_row, live_element};
ghost use Rattle.la_orset.specs.Puts.{adds_of, gone_of, with_named, entries_from, row_entry, all_added, all_gone};

use crate::packed_row::PackedRow;
use crate::rows::{Named, Row, Rows};
use la_object::{Adds, Ids};
use la_set::UpdateId;
use std::alloc::{AllocError, Global};
use std::marker::Model;

/// What was put, by the ids of the Puts, and which of these ids a `Remove` named. Each replica has
/// its own rows, which grow at their end where its ids come in ascending order.
#[derive(Drop)]
pub struct Puts {
    alloc: Global,
    by_replica: Vec<Rows>,
}

impl Model for Puts {
    ghost use Rattle.std.specs.Prelude.{◌≤◌, length};
    ghost use Rattle.std.specs.FinMap as map;
    ghost use Rattle.la_orset.specs.Puts.{PutMap, put_map_code, entries_from};

    ghost Value = { PutMap };

    ghost coded = { put_map_code };

    ghost view = { λ s. map.from_entries (entries_from 0 s.by_replica.items) };

    ghost invariant = { λ s. length s.by_replica.items ≤ 256 };
}

impl Puts {
    /// A record of no Puts, which takes no memory.
    pub fn new(alloc: Global) -> Puts
        ensures { result ≡ map.empty }
    {
        Puts {
            alloc,
            by_replica: Vec::new(alloc),
        }
    }

    /// Whether nothing was put.
    pub fn is_empty(&self) -> bool
        ensures { IsTrue result ↔ (self.now ≡ map.empty) }
    {
        for place in 0..self.by_replica.len() {
            if self.by_replica[place].as_slice().len() > 0 {
                return false;
            }
        }
        true
    }

    /// Whether something was put under the id.
    pub fn has(&self, id: UpdateId) -> bool
        ensures { result ≡ map.contains_key self.now id }
    {
        let replica = id.replica as usize;
        if replica >= self.by_replica.len() {
            return false;
        }
        self.by_replica[replica].has(id.number)
    }

    /// Puts an element under an id, with the place of its tag, or with none where the id is gone.
    /// After a refusal nothing has changed.
    pub fn insert(
        &mut self,
        id: UpdateId,
        element: u64,
        place: Option<u32>,
    ) -> Result<(), AllocError>
        ensures ok { OnOk result (self.new ≡ map.insert self.old id
            (known_row (record { number = id.number; gone = is_none place; element = element }))) }
        ensures err { OnErr result (self.new ≡ self.old) }
    {
        let replica = id.replica as usize;
        widen(self.alloc, &mut self.by_replica, replica + 1)?;
        let row = Row {
            number: id.number,
            gone: place.is_none(),
            element,
        };
        self.by_replica[replica].insert(row, place.unwrap_or(0))?;
        Ok(())
    }

    /// Notes where the tag of an id stands now.
    pub fn set_place(&mut self, id: UpdateId, place: u32)
        ensures { self.new ≡ self.old }
    {
        let replica = id.replica as usize;
        if replica >= self.by_replica.len() {
            return;
        }
        self.by_replica[replica].set_place(id.number, place);
    }

    /// Notes that a `Remove` named the id, and answers what was put under it, where none had named
    /// it.
    pub fn name(&mut self, id: UpdateId) -> Option<Named>
        ensures answer { option_map (λ named. named.element) result
            ≡ live_element (map.get self.old id) }
        ensures named { self.new ≡ with_named self.old id }
    {
        let replica = id.replica as usize;
        if replica >= self.by_replica.len() {
            return None;
        }
        self.by_replica[replica].name(id.number)
    }

    /// The elements, by the ids under which they were put, copied one after another.
    pub fn adds(&self) -> Result<Adds, AllocError>
        ensures { IfOk result (λ adds. adds ≡ adds_of self.now) }
    {
        let mut adds = Adds::new(self.alloc);
        for place in 0..self.by_replica.len() {
            add_rows(&mut adds, place as u8, self.by_replica[place].as_slice())?;
        }
        Ok(adds)
    }

    /// The ids that are gone, copied one after another.
    pub fn gone(&self, early: &Ids) -> Result<Ids, AllocError>
        ensures { IfOk result (λ gone. gone ≡ gone_of early.now self.now) }
    {
        let mut gone = early.copy(self.alloc)?;
        for place in 0..self.by_replica.len() {
            name_rows(&mut gone, place as u8, self.by_replica[place].as_slice())?;
        }
        Ok(gone)
    }
}

// Has rows, with none in them, for at least so many replicas.
fn widen(alloc: Global, by_replica: &mut Vec<Rows>, least: usize) -> Result<(), AllocError>
    requires least { least ≤ 256 }
    requires few { length by_replica.old.items ≤ 256 }
    ensures same { entries_from 0 by_replica.new.items ≡ entries_from 0 by_replica.old.items }
    ensures few { length by_replica.new.items ≤ 256 }
    ensures ok { OnOk result (least ≤ length by_replica.new.items) }
{
    while by_replica.len() < least {
        by_replica.push(Rows::new(alloc))?;
    }
    Ok(())
}

// Adds the elements of a replica's rows where none is there.
fn add_rows(adds: &mut Adds, replica: u8, rows: &[PackedRow]) -> Result<(), AllocError>
    ensures { OnOk result (adds.new ≡ all_added adds.old (list_map (row_entry replica) rows.now)) }
{
    for row in rows {
        let row = row.row();
        let id = UpdateId {
            replica,
            number: row.number,
        };
        adds.insert_new(id, row.element)?;
    }
    Ok(())
}

// Adds the ids of a replica's rows that are gone.
fn name_rows(gone: &mut Ids, replica: u8, rows: &[PackedRow]) -> Result<(), AllocError>
    ensures { OnOk result (gone.new ≡ all_gone gone.old (list_map (row_entry replica) rows.now)) }
{
    for row in rows {
        let row = row.row();
        if row.gone {
            gone.insert(UpdateId {
                replica,
                number: row.number,
            })?;
        }
    }
    Ok(())
}
