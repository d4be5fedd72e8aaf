// What the definitions mean: laws over all updates, sets and shelves, which no code runs.
ghost use Rattle.std.specs.Prelude.{◌≡◌, ◌≢◌, ℕ, ◌^◌, true, false, List, Contains, filter};
ghost use Rattle.la_set.specs.declared.update.Update.{Update};
ghost use Rattle.la_set.specs.declared.update.Op.TheVariants.{Put};
ghost use Rattle.la_object.specs.declared.kind.Kind.{Kind};
ghost use Rattle.la_object.specs.declared.query.Query.{Query};
ghost use Rattle.la_object.specs.declared.query.Query.TheVariants.{Has};
ghost use Rattle.la_object.specs.declared.query.Answer.TheVariants.{Has as HasIs};
ghost use Rattle.la_object.specs.declared.state.State.{State};
ghost use Rattle.la_object.specs.Laws.{OrderLeavesAnswers, OrderLeavesTags};
ghost use Rattle.la_object.specs.Objects.{after, steps, value, tags_by};
ghost use Rattle.la_object.specs.Objects.{is_of_kind, kind_of, without_marks_and_votes};
ghost use Rattle.la_object.specs.Shelves.{ShelfState, kind_at, answer_at, tags_at};
ghost use Rattle.la_object.specs.Shelves.{state_at, IsOneObject};
ghost use Rattle.la_object.specs.OrSet.{is_removed, set_value};

use crate::MAX_SUM;

/// The limit of a counter's sums, as a number: contracts name it, and so follow it wherever it
/// goes.
pub fn limits()
    ensures { MAX_SUM ≡ 2 ^ 62 }
{}

/// In whatever order an object absorbs its updates of a set, each once, it answers by what they
/// are, and observes their live tags. Two steps with different ids commute.
pub fn order_does_not_matter()
    ensures commute { (s : State) (u v : Update)
        → u.id ≢ v.id → after (after s u) v ≡ after (after s v) u }
    ensures answers { OrderLeavesAnswers }
    ensures tags { OrderLeavesTags }
{}

/// Only the operations of an object's own kind count: the answers, the live tags and the state over
/// updates are those over the ones of the kind, and those over the ones that are no `Mark` and no
/// `Vote`.
pub fn only_own_operations_count()
    ensures own { (kind : Kind) (us : List Update) (query : Query)
        → value kind (filter (λ u. is_of_kind kind u.op) us) query ≡ value kind us query }
    ensures own_tags { (kind : Kind) (us : List Update) (x : ℕ)
        → tags_by kind (filter (λ u. is_of_kind kind u.op) us) x ≡ tags_by kind us x }
    ensures own_steps { (s : State) (us : List Update)
        → steps s (filter (λ u. is_of_kind (kind_of s) u.op) us) ≡ steps s us }
    ensures marks { (kind : Kind) (us : List Update) (query : Query)
        → value kind (without_marks_and_votes us) query ≡ value kind us query }
    ensures mark_tags { (kind : Kind) (us : List Update) (x : ℕ)
        → tags_by kind (without_marks_and_votes us) x ≡ tags_by kind us x }
    ensures mark_steps { (s : State) (us : List Update)
        → steps s (without_marks_and_votes us) ≡ steps s us }
{}

/// Only the operations on an object itself count: two shelves with objects of one kind under a
/// number, whose views have the same operations of that kind there, answer every query to them alike,
/// observe the same tags, and retire the same state, whatever else their views have.
pub fn other_objects_do_not_count()
    ensures answers { (a b : ShelfState) (number : ℕ) (kind : Kind) (query : Query)
        → IsOneObject number kind a b → answer_at a number query ≡ answer_at b number query }
    ensures tags { (a b : ShelfState) (number : ℕ) (kind : Kind) (x : ℕ)
        → IsOneObject number kind a b → tags_at a number x ≡ tags_at b number x }
    ensures states { (a b : ShelfState) (number : ℕ) (kind : Kind)
        → IsOneObject number kind a b → state_at a number ≡ state_at b number }
{}

/// Adds win: an element is in an observed-remove set where one of its updates is a Put of it whose
/// id no Remove there names, whatever else was put and removed, before or after.
pub fn live_puts_count()
    ensures { (us : List Update) (u : Update) (x : ℕ)
        → Contains us u → u.op ≡ Put x → is_removed us u.id ≡ false
        → set_value us (Has x) ≡ HasIs true }
{}

/// Two shelves with equal views, and objects of one kind under a number, answer every query alike,
/// whatever came on the way there; they observe the same tags, and retire the same state.
pub fn equal_views_answer_alike()
    ensures answers { (a b : ShelfState) (number : ℕ) (query : Query)
        → a.view ≡ b.view → kind_at a.objects number ≡ kind_at b.objects number
        → answer_at a number query ≡ answer_at b number query }
    ensures tags { (a b : ShelfState) (number x : ℕ)
        → a.view ≡ b.view → kind_at a.objects number ≡ kind_at b.objects number
        → tags_at a number x ≡ tags_at b number x }
    ensures states { (a b : ShelfState) (number : ℕ)
        → a.view ≡ b.view → kind_at a.objects number ≡ kind_at b.objects number
        → state_at a number ≡ state_at b number }
{}
