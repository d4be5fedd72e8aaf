// What the definitions mean for an observed-remove set: laws over all updates and sets, which no code
// runs.
ghost use Rattle.std.specs.Prelude.{◌≡◌, ℕ, List};
ghost use Rattle.la_set.specs.declared.update.Update.{Update};
ghost use Rattle.la_object.specs.declared.query.Query.{Query};
ghost use Rattle.la_object.specs.OrSet.{set_value, live_tags};
ghost use Rattle.la_object.specs.Objects.{steps, of_object, without_marks_and_votes};
ghost use Rattle.la_orset.specs.Laws.{AnswersPassOverMarks, TagsPassOverMarks};

use crate::OrSet;
use la_object::Replicated;

/// The answers and the live tags over the updates of the set under a number are those over the ones
/// that are no `Mark` and no `Vote`.
pub fn marks_and_votes_do_not_count()
    ensures answers { (us : List Update) (number : ℕ) (query : Query)
        → set_value (of_object number (without_marks_and_votes us)) query
        ≡ set_value (of_object number us) query }
    ensures tags { (us : List Update) (number x : ℕ)
        → live_tags (of_object number (without_marks_and_votes us)) x
        ≡ live_tags (of_object number us) x }
{
    la_object::laws::only_own_operations_count();
}

/// Whatever an [`OrSet`] has absorbed, further updates lead it where those of them do that are no
/// `Mark` and no `Vote`. Once it has absorbed the updates of a view under a number, in whatever
/// order, each once, it answers by the view without its `Mark`s and `Vote`s, and observes their live
/// tags.
pub fn sets_pass_over_marks_and_votes()
    ensures steps { (set : OrSet) (us : List Update)
        → steps (⟦<OrSet as Replicated>⟧.state set) (without_marks_and_votes us)
        ≡ steps (⟦<OrSet as Replicated>⟧.state set) us }
    ensures answers { AnswersPassOverMarks ⟦<OrSet as Replicated>⟧.state }
    ensures tags { TagsPassOverMarks ⟦<OrSet as Replicated>⟧.state }
{
    la_object::laws::only_own_operations_count();
    la_object::laws::order_does_not_matter();
    marks_and_votes_do_not_count();
}
