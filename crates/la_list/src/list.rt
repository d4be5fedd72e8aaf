ghost use Rattle.std.specs.Prelude.{◌≡◌, IfErr, OnOk, OnErr};
ghost use Rattle.la_list.specs.Lists.{list_start};

use crate::{Ids, Insertion, Inserts, ListOp, Moment};
use la_set::{Sequence, Update, UpdateId};
use la_shelf::{Absorbs, Refusal};
use la_types::Bytes;
use std::alloc::{AllocError, Global};

/// An element of a list, under the id of the update that put it in.
#[derive(Drop)]
pub struct Element {
    pub id: UpdateId,
    pub value: Bytes,
}

/// What an [`ElementList`] keeps of its updates.
#[derive(Drop)]
pub struct ListState {
    /// What was put in, by moments.
    pub inserts: Inserts,
    /// The ids of the elements that were taken out.
    pub deleted: Ids,
}

/// A list of elements, which are bytes. An element is put right behind another, or at the head,
/// and taken out, by the ids of elements, which are those of the updates that put them in.
///
/// What was put in is taken in the order of stamps, and where they are equal of ids: each is put
/// right behind the element that it names, where that stands by then, and else doesn't show. So of
/// what was put in at one place the later stands first. Then those are left out that some update
/// took out, whose ids still say where others stand.
///
/// It has no kinds, one question, `()`, and its answer is the list in order. It keeps every element
/// for ever; an update costs a logarithm of what is kept, and an answer in proportion to it, but
/// for a logarithm.
#[derive(Drop)]
pub struct ElementList {
    state: ListState,
    alloc: Global,
}

impl ElementList {
    /// A list with no elements. It takes no memory.
    pub fn new(alloc: Global) -> ElementList
        ensures { result.state ≡ list_start }
    {
        ElementList {
            state: ListState {
                inserts: Inserts::new(alloc),
                deleted: Ids::new(alloc),
            },
            alloc,
        }
    }
}

impl Absorbs for ElementList {
    ghost use Rattle.la_list.specs.Lists.{list_meaning};
    ghost use Rattle.la_shelf.specs.declared.error.Refusal.TheVariants.{Memory};
    ghost use Rattle.la_list.specs.ListLaws.{list_lawful};

    type Kind = ();

    type State = ListState;

    type Query = ();

    type Answer = Sequence<Element>;

    ghost state = { λ list. list.state };

    ghost meaning = { list_meaning };

    ghost full = { λ _ _. ⊥ };

    fn fresh(&self) -> bool {
        self.state.inserts.is_empty() && self.state.deleted.is_empty()
    }

    fn absorb(&mut self, update: &Update) -> Result<(), Refusal>
        ensures ok { OnOk result (self.new.state ≡ list_meaning.after self.old.state update.now) }
        ensures error { IfErr result (λ e. e ≡ Memory) }
        ensures err { OnErr result (self.new.state ≡ self.old.state) }
    {
        let id = update.id;
        match ListOp::of_op(self.alloc, &update.op)? {
            Some(
                ListOp::Insert {
                    behind,
                    stamp,
                    value,
                },
            ) => {
                let moment = Moment { stamp, id };
                self.state
                    .inserts
                    .keep(moment, Insertion { behind, value })?;
            }
            Some(ListOp::Delete { element }) => self.state.deleted.put(element)?,
            None => {}
        }
        Ok(())
    }

    fn ask(&self, _question: &()) -> Result<Sequence<Element>, AllocError> {
        let chain = self.state.inserts.chain(self.alloc)?;
        chain.shown(self.alloc, &self.state.deleted)
    }

    fn state(&self) -> Result<ListState, AllocError> {
        Ok(ListState {
            inserts: self.state.inserts.copy(self.alloc)?,
            deleted: self.state.deleted.copy()?,
        })
    }

    ghost lawful = { list_lawful };
}
