// What the definitions mean: laws over every history, which no code runs.
ghost use Rattle.std.specs.Prelude.{◌≡◌, ◌⊎◌, List, ◌∷◌, ◌++◌};
ghost use mathlib.Core.List.{IsPrefix};
ghost use Rattle.la_set.specs.Counts.{counts_of};
ghost use Rattle.la_set.specs.declared.counts.Counts.{Counts};
ghost use Rattle.la_set.specs.Histories.{Histories};
ghost use Rattle.la_set.specs.Inclusion.{IsSubset};
ghost use Rattle.la_set.specs.Join.{IsCompatible};
ghost use Rattle.la_acceptor.specs.Answer.{answer};
ghost use Rattle.la_acceptor.specs.Offers.{AreAnswered, accepted_after};
ghost use Rattle.la_shared.specs.declared.entry.Entry.{Entry};
ghost use Rattle.la_shared.specs.History.{accepted_by, offers, IsLegal, HasEntry, HasYes};
ghost use Rattle.la_shared.specs.Bases.{AgreesWith};
ghost use Rattle.la_shared.specs.Laws.{WhatWasSeenStays};
ghost use Rattle.la_shared.specs.Passes.{Known, Extends};

use la_acceptor::Reply;

/// A legal history is one that an acceptor by itself would give: each offer is one that it answers,
/// each reply is the acceptor rule's from what was accepted before it, and that is what the
/// acceptor accepts by the offers before it.
pub fn legal_histories_are_an_acceptors()
    ensures replies { (before after : List Entry) (e : Entry)
        → IsLegal (before ++ e ∷ after) → e.reply ≡ answer (accepted_by before) e.set }
    ensures compatible { (before after : List Entry) (e : Entry)
        → IsLegal (before ++ e ∷ after) → IsCompatible (accepted_by before) e.set }
    ensures accepted { (history : List Entry)
        → accepted_by history ≡ accepted_after (offers history) }
    ensures answered { (history : List Entry) → IsLegal history → AreAnswered (offers history) }
    ensures beginnings { (history longer : List Entry)
        → IsPrefix history longer → IsLegal longer → IsLegal history }
{}

/// Of two acknowledged sets of one legal history one contains the other; and one that is
/// acknowledged later contains each that was offered before.
pub fn acknowledged_sets_are_comparable()
    ensures any_two { (history : List Entry) (one other : Histories)
        → IsLegal history → HasYes history one → HasYes history other
        → IsSubset one other ⊎ IsSubset other one }
    ensures later { (earlier later : List Entry) (one other : Histories) (reply : Reply)
        → IsLegal (earlier ++ later) → HasEntry earlier one reply → HasYes later other
        → IsSubset one other }
{
    la_set::laws::union_has_both();
    la_acceptor::laws::replies_tell_what_is_accepted();
}

/// What a pass knows it never loses. After an answered offer it has seen what it had seen and this
/// offer with its reply, which is one of its own entries. An entry of a history stands in each
/// longer one, and an own entry in what was seen. Of two beginnings of one history, one begins with
/// the other.
pub fn what_was_seen_stays()
    ensures { WhatWasSeenStays }
{}

/// What is accepted only grows along a history; so a set that agrees with it within some counts does
/// so ever after. It agrees as far as a set went that was offered there and lies in it. A refusal
/// contains the offer.
pub fn agreements_stay()
    ensures grows { (seen longer : List Entry)
        → IsPrefix seen longer → IsSubset (accepted_by seen) (accepted_by longer) }
    ensures longer { (seen longer : List Entry) (base : Counts) (set : Histories)
        → IsPrefix seen longer → AgreesWith base seen set → AgreesWith base longer set }
    ensures offered { (history : List Entry) (set larger : Histories) (reply : Reply)
        → IsLegal history → HasEntry history set reply → IsSubset set larger
        → AgreesWith (counts_of set) history larger }
    ensures refused { (old new : Known) (set refused : Histories)
        → Extends set (Reply.No refused) old new → IsSubset set refused }
{}
