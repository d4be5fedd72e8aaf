ghost use Rattle.std.specs.Prelude.{◌≡◌, ◌↔◌, true, Some, None, IsTrue, IsOk, IfOk, IfErr, OnOk, OnErr};
ghost use Rattle.std.specs.FinMap as map;
ghost use Rattle.la_types.specs.ByteSets.{has_bytes, with_bytes, without_bytes};
ghost use Rattle.la_types.specs.Elements.{insert_element_op, remove_element_op, element_inserted, element_removed};
ghost use Rattle.la_types.specs.Elements.{first_byte_is, answer_by_set, takes_no_memory};
ghost use Rattle.la_types.specs.Refusals.{IsElementRefusal};

use crate::Bytes;
use crate::bytes::{Written, put_all};
use la_own::{OwnError, laws, own_op};
use la_set::{Op, Sequence};
use std::alloc::{AllocError, Global};
use std::collections::BTreeSet;
use std::marker::Model;

/// How long an element may be that a [`GrowSet`](crate::GrowSet) or a
/// [`TwoPhaseSet`](crate::TwoPhaseSet) takes.
pub const ELEMENT_BYTES: usize = 247;

// The first byte of an operation that inserts an element, and of one that removes one.
pub const INSERTS: u8 = 1;

pub const REMOVES: u8 = 2;

/// The operation that inserts an element into a [`GrowSet`](crate::GrowSet) or a
/// [`TwoPhaseSet`](crate::TwoPhaseSet).
///
/// `TooLong` comes exactly above [`ELEMENT_BYTES`] bytes.
pub fn insert_element_op(alloc: Global, element: &[u8]) -> Result<Op, OwnError>
    ensures ok { IfOk result (λ op. op ≡ insert_element_op element.now) }
    ensures comes_back { IfOk result (λ op. element_inserted op ≡ Some element.now) }
    ensures alone { IfOk result (λ op. element_removed op ≡ None) }
    ensures error { IfErr result (IsElementRefusal element.now) }
{
    if element.len() > ELEMENT_BYTES {
        return Err(OwnError::TooLong);
    }
    laws::bytes_come_back();
    let mut bytes = Written::new();
    bytes.push(INSERTS);
    put_all(&mut bytes, element);
    own_op(alloc, bytes.as_slice())
}

/// The operation that removes an element from a [`TwoPhaseSet`](crate::TwoPhaseSet), for good. A
/// [`GrowSet`](crate::GrowSet) passes over it.
///
/// `TooLong` comes exactly above [`ELEMENT_BYTES`] bytes.
pub fn remove_element_op(alloc: Global, element: &[u8]) -> Result<Op, OwnError>
    ensures ok { IfOk result (λ op. op ≡ remove_element_op element.now) }
    ensures comes_back { IfOk result (λ op. element_removed op ≡ Some element.now) }
    ensures alone { IfOk result (λ op. element_inserted op ≡ None) }
    ensures error { IfErr result (IsElementRefusal element.now) }
{
    if element.len() > ELEMENT_BYTES {
        return Err(OwnError::TooLong);
    }
    laws::bytes_come_back();
    let mut bytes = Written::new();
    bytes.push(REMOVES);
    put_all(&mut bytes, element);
    own_op(alloc, bytes.as_slice())
}

// Whether the bytes begin with this one.
pub fn begins_with(bytes: &[u8], first: u8) -> bool
    ensures { result ≡ first_byte_is bytes.now first }
{
    bytes.len() >= 1 && bytes[0] == first
}

/// What a set of elements is asked.
#[derive(Drop)]
pub enum SetQuery {
    /// Whether it has this element.
    Has(Bytes),
    /// How many elements it has.
    Size,
    /// Its elements, in the order of a dictionary.
    Items,
}

/// What a set of elements answers.
#[derive(Drop)]
pub enum SetAnswer {
    /// The answer to [`SetQuery::Has`]: whether the element is there.
    Has(bool),
    /// The answer to [`SetQuery::Size`]: how many elements there are.
    Size(u64),
    /// The answer to [`SetQuery::Items`]: the elements, in the order of a dictionary.
    Items(Sequence<Bytes>),
}

/// A set of elements, which are bytes: a finite set, to clauses.
#[derive(Drop)]
pub struct Elements {
    of: BTreeSet<Vec<u8>>,
}

impl Model for Elements {
    ghost use Rattle.std.specs.Prelude.{map};
    ghost use Rattle.std.specs.Vec.{vec_items};
    ghost use Rattle.la_types.specs.ByteSets.{ByteSet, byte_set_code, set_of_bytes};

    ghost Value = { ByteSet };

    ghost coded = { byte_set_code };

    ghost view = { λ s. set_of_bytes (map vec_items s.of.keys) };
}

impl Elements {
    /// No elements. It takes no memory.
    pub fn new(alloc: Global) -> Elements
        ensures { result ≡ map.empty }
    {
        Elements {
            of: BTreeSet::new(alloc),
        }
    }

    /// Whether there are no elements, at constant cost.
    pub fn is_empty(&self) -> bool
        ensures { IsTrue result ↔ (self.now ≡ map.empty) }
    {
        self.of.is_empty()
    }

    /// How many elements there are, at constant cost.
    pub fn len(&self) -> usize
        ensures { result ≡ map.len self.now }
    {
        self.of.len()
    }

    /// Whether an element is there, at logarithmic cost.
    pub fn has(&self, element: &[u8]) -> bool
        ensures { result ≡ has_bytes self.now element.now }
    {
        self.of.contains(element)
    }

    /// Inserts an element, at logarithmic cost. Memory is taken where the element is new alone;
    /// after a refusal nothing has changed.
    pub fn insert(&mut self, alloc: Global, element: &[u8]) -> Result<(), AllocError>
        ensures ok { OnOk result (self.new ≡ with_bytes self.old element.now) }
        ensures err { OnErr result (self.new ≡ self.old) }
        ensures room { has_bytes self.old element.now ≡ true → IsOk result }
    {
        if self.has(element) {
            return Ok(());
        }
        self.insert_new(Vec::from_slice(alloc, element)?)
    }

    fn insert_new(&mut self, element: Vec<u8>) -> Result<(), AllocError>
        ensures ok { OnOk result (self.new ≡ with_bytes self.old element.items) }
        ensures err { OnErr result (self.new ≡ self.old) }
    {
        self.of.insert(element)?;
        Ok(())
    }

    /// Removes an element, where it is there, at logarithmic cost.
    pub fn remove(&mut self, element: &[u8])
        ensures { self.new ≡ without_bytes self.old element.now }
    {
        self.of.remove(element);
    }

    /// The elements, in the order of a dictionary, each of them copied.
    pub fn all(&self, alloc: Global) -> Result<Sequence<Bytes>, AllocError>
        ensures { IfOk result (λ all. all ≡ map.keys self.now) }
    {
        let mut all = Vec::new(alloc);
        for element in self.of.iter() {
            all.push(Bytes::of(alloc, element.as_slice())?)?;
        }
        Ok(Sequence::from(all))
    }

    /// A copy, made one element after another.
    pub fn copy(&self, alloc: Global) -> Result<Elements, AllocError>
        ensures { IfOk result (λ copy. copy ≡ self.now) }
    {
        let mut copy = Elements::new(alloc);
        for element in self.of.iter() {
            copy.insert_new(Vec::from_slice(alloc, element.as_slice())?)?;
        }
        Ok(copy)
    }

    // Answers a question.
    pub(crate) fn answer(&self, alloc: Global, query: &SetQuery) -> Result<SetAnswer, AllocError>
        ensures ok { IfOk result (λ answer. answer ≡ answer_by_set self.now query.now) }
        ensures room { takes_no_memory query.now ≡ true → IsOk result }
    {
        match query {
            SetQuery::Has(element) => Ok(SetAnswer::Has(self.has(element.as_slice()))),
            SetQuery::Size => Ok(SetAnswer::Size(self.len() as u64)),
            SetQuery::Items => Ok(SetAnswer::Items(self.all(alloc)?)),
        }
    }
}
