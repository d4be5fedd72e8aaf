ghost use Rattle.std.specs.Prelude.{◌≡◌, ◌<◌, ◌≤◌, ℕ, [], ◌∷◌, ◌++◌, map, take, length};
ghost use Rattle.std.specs.Prelude.{slice_get, nat_eq, is_some, false, Some, None, Ok};
ghost use Rattle.std.specs.Prelude.{All, IsSomeAnd, IsOk, IfOk, IfErr, OnOk, OnErr, MatchOption};
ghost use Rattle.std.specs.Map.{lookup, keys_of, remove_entry};
ghost use Rattle.la_set.specs.Histories.{empty};
ghost use Rattle.la_set.specs.Inclusion.{IsSubset};
ghost use Rattle.la_set.specs.Join.{HasNoMore, IsCompatible};
ghost use Rattle.la_set.specs.Difference.{beyond};
ghost use Rattle.la_shelf.specs.Shelves.{absorbed, all_absorbed};
ghost use Rattle.la_object.specs.Objects.{kind_of, answers_a_list, meaning, IsFresh};
ghost use Rattle.la_object.specs.Shelves.{kind_at, answer_at, tags_at, state_at, IsFirstMore};
ghost use Rattle.la_object.specs.Shelves.{HasTaken, states, HaveRoom, IsSmall};
ghost use Rattle.la_object.specs.Refusals.{IsAddRefusal, IsAskRefusal, IsTagsRefusal};
ghost use Rattle.la_object.specs.Refusals.{IsAbsorbRefusal};

use crate::{AbsorbError, Answer, ObserveError, Query, Replicated, ShelfError, State};
use indexmap::IndexMap;
use la_set::{Op, REPLICAS, Tags, Update, UpdateSet};
use std::alloc::{AllocError, Global};
use std::marker::Model;

// How many updates are absorbed at a time: they take one block of memory for the view, and one for
// the references to them.
const RUN: u32 = 1_000;

// How many objects' places are noted while a run is absorbed.
const PLACES: usize = 16;

/// Objects under numbers, in the order of their addition, and the view: the set of updates that
/// they have absorbed, each object those of its number.
///
/// A shelf of objects of several kinds is a `Shelf<Box<dyn Replicated + Send>>`; one of a single
/// type needs no box.
#[derive(Drop)]
pub struct Shelf<B: Replicated> {
    objects: IndexMap<u16, B>,
    view: UpdateSet,
}

impl<B: Replicated> Model for Shelf<B> {
    ghost use Rattle.la_object.specs.Shelves.{ShelfState, states, kinds, IsClosedShelf};

    ghost Value = { ShelfState };

    ghost view = { λ s. record { view = s.view; objects = kinds (states B.state s.objects) } };

    ghost invariant = { λ s. IsClosedShelf s.view (states B.state s.objects) };
}

impl<B: Replicated> Shelf<B> {
    /// A shelf without objects that has absorbed nothing. It takes no memory.
    pub fn new(alloc: Global) -> Shelf<B>
        ensures { result ≡ record { view = empty; objects = [] } }
    {
        Shelf {
            objects: IndexMap::new(alloc),
            view: UpdateSet::new(alloc),
        }
    }

    /// The view: the set of all updates that the shelf has absorbed.
    pub fn view(&self) -> &UpdateSet
        ensures { result.now ≡ self.now.view }
    {
        &self.view
    }

    /// Whether an object stands under the number.
    pub fn has(&self, number: u16) -> bool
        ensures { result ≡ is_some (kind_at self.now.objects number) }
    {
        self.objects.contains_key(&number)
    }

    /// The number of the object at a place, from 0, in the order of addition. Where an object is
    /// retired those behind it move up.
    pub fn at(&self, place: usize) -> Option<u16>
        ensures { result ≡ slice_get (map (λ o. o.0) self.now.objects) place }
    {
        match self.objects.get_index(place) {
            Some((number, _)) => Some(*number),
            None => None,
        }
    }

    /// Asks the object under a number. The answer is what the query's definition says of the
    /// object's updates of the view. `NoSuchObject` comes exactly where there is none. Only an answer
    /// that is a list takes memory.
    pub fn ask(&self, number: u16, query: &Query) -> Result<Answer, ShelfError>
        ensures ok { IfOk result (λ answer. answer_at self.now number query.now ≡ Some answer) }
        ensures room { IsSomeAnd (kind_at self.now.objects number)
            (λ kind. answers_a_list kind query.now ≡ false) → IsOk result }
        ensures error { IfErr result (IsAskRefusal (kind_at self.now.objects number)) }
    {
        let Some(object) = self.objects.get(&number) else {
            return Err(ShelfError::NoSuchObject);
        };
        match object.ask(query) {
            Ok(answer) => Ok(answer),
            Err(_) => Err(ShelfError::Memory),
        }
    }

    /// Asks the object under a number once the shelf has absorbed a set that contains the view, as
    /// [`Shelf::absorb_compatible`] does: the cost is that of what is new, and of the answer.
    ///
    /// `NoSuchObject` comes where there is none under the number, and leaves the shelf as it was; else
    /// `Memory`, after which the shelf may have absorbed some of the set.
    pub fn ask_by(
        &mut self,
        set: &UpdateSet,
        number: u16,
        query: &Query,
    ) -> Result<Answer, ShelfError>
        requires { IsSubset self.old.view set.now }
        ensures ok { IfOk result (λ answer.
            answer_at (record self.old { view = set.now }) number query.now ≡ Some answer) }
        ensures follows { OnOk result (self.new ≡ record self.old { view = set.now }) }
        ensures error { IfErr result (IsAskRefusal (kind_at self.old.objects number)) }
        ensures objects { self.new.objects ≡ self.old.objects }
        ensures within { IsSubset self.new.view set.now }
        ensures absent { kind_at self.old.objects number ≡ None → self.new ≡ self.old }
    {
        if !self.has(number) {
            return Err(ShelfError::NoSuchObject);
        }
        match self.absorb_compatible(set) {
            Ok(_) => self.ask(number, query),
            Err(_) => Err(ShelfError::Memory),
        }
    }

    /// The live tags of an element of the object under a number, by the view. `NoSuchObject` comes
    /// exactly where there is none, and else `TooManyTags` exactly where the live tags are more than
    /// a `Remove` may name. Up to [`INLINE_TAGS`](la_set::INLINE_TAGS) tags take no memory.
    pub fn observed(&self, number: u16, element: u64) -> Result<Tags, ShelfError>
        ensures ok { IfOk result (λ tags. tags_at self.now number element ≡ Some tags) }
        ensures error { IfErr result (IsTagsRefusal (tags_at self.now number element)) }
    {
        let Some(object) = self.objects.get(&number) else {
            return Err(ShelfError::NoSuchObject);
        };
        match object.observed(element) {
            Ok(tags) => Ok(tags),
            Err(ObserveError::TooManyTags) => Err(ShelfError::TooManyTags),
            Err(ObserveError::Memory) => Err(ShelfError::Memory),
        }
    }

    /// Adds an object in its kind's start state, which first absorbs its updates of the view, in
    /// one pass. `Taken` comes exactly where the number has an object, and else `NotFresh` exactly
    /// where the object has absorbed something that changed it. After a refusal the shelf is
    /// unchanged, and the object is dropped.
    pub fn add(&mut self, number: u16, object: B) -> Result<(), ShelfError>
        ensures ok { OnOk result (self.new ≡ record self.old {
          objects = self.old.objects ++ (number, kind_of (B.state object)) ∷ [];
        }) }
        ensures absent { OnOk result (kind_at self.old.objects number ≡ None) }
        ensures fresh { OnOk result (IsFresh (B.state object)) }
        ensures error { IfErr result
            (IsAddRefusal (kind_at self.old.objects number) (B.state object)) }
        ensures err { OnErr result (self.new ≡ self.old) }
    {
        if self.has(number) {
            return Err(ShelfError::Taken);
        }
        if !object.fresh() {
            return Err(ShelfError::NotFresh);
        }
        let mut added = object;
        for place in 0..self.view.len() {
            if let Some(update) = self.view.at(place) {
                if update.object == number {
                    let Ok(()) = added.absorb(update) else {
                        return Err(ShelfError::Memory);
                    };
                }
            }
        }
        let Ok(_) = self.objects.insert(number, added) else {
            return Err(ShelfError::Memory);
        };
        Ok(())
    }

    /// Lets each object absorb what the set has of its number beyond the view, in the order of ids
    /// and once each, and answers how many updates those are; the set is then the view. `Smaller`
    /// comes exactly where the set does not contain the view. After `Memory` the view is the old one
    /// with the first `done` of these updates, and still lies in the set. Where the set is the view no
    /// memory is taken. The cost is that of the inclusion test, and then constant for each new update,
    /// beside its object's: one look at the end of each list that is longer, in runs of up to 1,000
    /// updates, each of which takes two blocks of memory for a while.
    pub fn absorb(&mut self, set: &UpdateSet) -> Result<u64, AbsorbError>
        ensures ok { OnOk result (self.new ≡ record self.old { view = set.now }) }
        ensures many { IfOk result (λ many. many ≡ length (beyond set.now self.old.view)) }
        ensures contained { OnOk result (IsSubset self.old.view set.now) }
        ensures error { IfErr result (IsAbsorbRefusal self.old set.now self.new) }
        ensures within { IsSubset self.old.view set.now → IsSubset self.new.view set.now }
        ensures again { set.now ≡ self.old.view → result ≡ Ok 0 }
    {
        if !set.contains_all(self.view()) {
            return Err(AbsorbError::Smaller);
        }
        self.absorb_new(set)
    }

    /// Lets each object absorb what the set has of its number beyond the view, as [`Shelf::absorb`]
    /// does, with its answer and its refusals, and what stands after them, where no id has two
    /// updates in the set and the view, as in learnt sets of one instance: then the inclusion test
    /// compares counts alone, so that an absorption costs what is new and nothing for what both
    /// have.
    pub fn absorb_compatible(&mut self, set: &UpdateSet) -> Result<u64, AbsorbError>
        requires { IsCompatible set.now self.old.view }
        ensures ok { OnOk result (self.new ≡ record self.old { view = set.now }) }
        ensures many { IfOk result (λ many. many ≡ length (beyond set.now self.old.view)) }
        ensures contained { OnOk result (IsSubset self.old.view set.now) }
        ensures error { IfErr result (IsAbsorbRefusal self.old set.now self.new) }
        ensures within { IsSubset self.old.view set.now → IsSubset self.new.view set.now }
        ensures again { set.now ≡ self.old.view → result ≡ Ok 0 }
    {
        if !set.contains_compatible(self.view()) {
            return Err(AbsorbError::Smaller);
        }
        self.absorb_new(set)
    }

    // Absorbs what a set has beyond the view, which lies in it, a run at a time.
    fn absorb_new(&mut self, set: &UpdateSet) -> Result<u64, AbsorbError>
        requires { IsSubset self.old.view set.now }
        ensures ok { OnOk result (self.new ≡ record self.old { view = set.now }) }
        ensures many { IfOk result (λ many. many ≡ length (beyond set.now self.old.view)) }
        ensures error { IfErr result (IsAbsorbRefusal self.old set.now self.new) }
        ensures within { IsSubset self.old.view set.now → IsSubset self.new.view set.now }
        ensures again { set.now ≡ self.old.view → result ≡ Ok 0 }
    {
        // a hint to the prover: a set has at most 8,000,000 updates, so the count does not wrap
        let _limited = set.len();
        let mut done = 0;
        while let Some(replica) = first_more(self.view(), set) {
            match self.absorb_run(set, replica) {
                Ok(many) => done += many,
                Err(many) => return Err(AbsorbError::Memory { done: done + many }),
            }
        }
        self.share(set);
        Ok(done)
    }

    // Absorbs the next run of a replica's updates, the first of which a set has more, and answers how
    // many were absorbed: all of the run, or fewer where memory was refused.
    fn absorb_run(&mut self, set: &UpdateSet, replica: u8) -> Result<u64, u64>
        requires within { IsSubset self.old.view set.now }
        requires first { IsFirstMore self.old.view set.now replica }
        ensures ok { IfOk result (λ many. HasTaken self.old set.now self.new many) }
        ensures some { IfOk result (λ many. 0 < many) }
        ensures err { IfErr result (λ many. HasTaken self.old set.now self.new many) }
        ensures fewer { IfErr result (λ many. many < length (beyond set.now self.old.view)) }
    {
        // a hint to the prover: no number is over the limit
        let _limited = set.counts();
        let from = self.view.count_of(replica);
        let Ok(ready) = self.view.with_updates_of(replica, set) else {
            return Err(0);
        };
        let Ok(listed) = set.run(replica, from, RUN) else {
            return Err(0);
        };
        let run = listed.as_slice();
        let many = absorb_all(&mut self.objects, run);
        self.view = ready.first(replica, from + many as u32);
        if many < run.len() {
            return Err(many as u64);
        }
        Ok(many as u64)
    }

    // Takes a copy of an equal set in the view's place, so that the two share their updates; the
    // view stays where the set has as many copies as can be counted.
    fn share(&mut self, set: &UpdateSet)
        requires { set.now ≡ self.old.view }
        ensures { self.new ≡ self.old }
    {
        if let Ok(copy) = set.copy() {
            self.view = copy;
        }
    }

    /// Copies the state of the object under a number, and then takes the object out and drops it.
    /// The view keeps its updates. `NoSuchObject` comes exactly where there is none. After a
    /// refusal the shelf is unchanged.
    pub fn retire(&mut self, number: u16) -> Result<State, ShelfError>
        ensures ok { IfOk result (λ state. state_at self.old number ≡ Some state) }
        ensures rest { OnOk result (self.new ≡ record self.old {
          objects = remove_entry (nat_eq number) self.old.objects;
        }) }
        ensures error { IfErr result (IsAskRefusal (kind_at self.old.objects number)) }
        ensures err { OnErr result (self.new ≡ self.old) }
    {
        let Some(object) = self.objects.get(&number) else {
            return Err(ShelfError::NoSuchObject);
        };
        let Ok(state) = object.state() else {
            return Err(ShelfError::Memory);
        };
        self.objects.shift_remove(&number);
        Ok(state)
    }
}

// The numbers in an update are a program's. A hint to the prover, which does nothing: of a number that is
// read it knows the type's range.
fn tell_small(update: &Update)
    ensures { IsSmall update.now }
{
    match &update.op {
        Op::Inc(by) => {
            let _number = *by;
        }
        Op::Dec(by) => {
            let _number = *by;
        }
        _ => {}
    }
}

// Lets each object absorb its updates of a run, and answers how many were absorbed before the
// first refusal.
fn absorb_all<B: Replicated>(objects: &mut IndexMap<u16, B>, run: &[&Update]) -> usize
    requires { (k : ℕ) → All IsSmall (take k (map (λ update. update.now) run.now)) → HaveRoom
        (all_absorbed meaning (states B.state objects.old) (take k (map (λ update. update.now) run.now))) }
    ensures some { states B.state objects.new ≡ all_absorbed meaning (states B.state objects.old)
        (take result (map (λ update. update.now) run.now)) }
    ensures small { All IsSmall (take result (map (λ update. update.now) run.now)) }
    ensures few { result ≤ length run.now }
{
    let mut places = [0; PLACES];
    for at in 0..run.len() {
        let update = run[at];
        tell_small(update);
        let Ok(()) = absorb_one(objects, &mut places, update) else {
            return at;
        };
    }
    run.len()
}

// Lets the object with the update's number absorb it, where there is one, and notes its place.
fn absorb_one<B: Replicated>(
    objects: &mut IndexMap<u16, B>,
    places: &mut [usize; PLACES],
    update: &Update,
) -> Result<(), AllocError>
    requires { HaveRoom (states B.state objects.old) }
    ensures ok { OnOk result
        (states B.state objects.new ≡ absorbed meaning (states B.state objects.old) update.now) }
    ensures err { OnErr result (states B.state objects.new ≡ states B.state objects.old) }
{
    let slot = update.object as usize % PLACES;
    let Some(place) = place_of(objects, places[slot], update.object) else {
        return Ok(());
    };
    places[slot] = place;
    match objects.get_index_mut(place) {
        Some(object) => object.absorb(update),
        None => unreachable!(),
    }
}

// The place of the object with a number: the guess where it stands there, without a look-up.
fn place_of<B: Replicated>(objects: &IndexMap<u16, B>, guess: usize, number: u16) -> Option<usize>
    ensures { MatchOption result (lookup (nat_eq number) objects.now.entries ≡ None)
        (λ place. slice_get (keys_of objects.now.entries) place ≡ Some number) }
{
    match objects.get_index(guess) {
        Some((here, _)) if *here == number => Some(guess),
        _ => objects.get_index_of(&number),
    }
}

// The first replica of which a set has more updates than another.
fn first_more(view: &UpdateSet, set: &UpdateSet) -> Option<u8>
    ensures { MatchOption result (HasNoMore set.now view.now)
        (λ replica. IsFirstMore view.now set.now replica) }
{
    for replica in 0..REPLICAS {
        if view.count_of(replica) < set.count_of(replica) {
            return Some(replica);
        }
    }
    None
}
