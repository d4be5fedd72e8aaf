// What holds of a node and its steps: laws over the definitions, which no code runs.
ghost use Rattle.std.specs.Prelude.{◌↔◌, IsTrue};
ghost use Rattle.la_node.specs.LinkRuns.{BeliefsAreBounded, LackingIsBelieved};
ghost use Rattle.la_node.specs.Nodes.{NodeState, IsNode};
ghost use Rattle.la_node.specs.Resuming.{may_resume_node};
ghost use Rattle.la_node.specs.Steps.{KeptListsLeadOn, KeptListsArePlayedAgain, StepViewsGrow};
ghost use Rattle.la_node.specs.Steps.{RefusedCallsAreNoSteps, StillMessagesChangeNothing};

/// Where a list of accepted calls leads from a new replica to a node's, the list with the next call
/// that the node accepts leads to its replica then.
pub fn kept_lists_lead_on()
    ensures { KeptListsLeadOn }
{}

/// Where a first part of a list of accepted calls is played into a new node, the rest leads from there to
/// where it led before.
pub fn kept_lists_are_played_again()
    ensures { KeptListsArePlayedAgain }
{}

/// No step makes the view smaller.
pub fn views_grow()
    ensures { StepViewsGrow }
{}

/// A message leaves the replica as it was where what is said of it, and whether more is accepted in its
/// instance than before, say so ([`Said::is_still`](la_replica::Said::is_still)): a list of accepted calls
/// leads to the same replica without it.
pub fn still_messages_change_nothing()
    ensures { StillMessagesChangeNothing }
{}

/// A call that a node refuses, but for want of memory, has no step: so the calls that it accepts where there is
/// memory are those that have one.
pub fn refused_calls_are_no_steps()
    ensures { RefusedCallsAreNoSteps }
{}

/// A node may be made again of its replica, with a shelf that has absorbed no more than its view: the test
/// decides whether a replica and a shelf are those of a node.
pub fn nodes_may_be_resumed()
    ensures { (node : NodeState) → IsTrue (may_resume_node node) ↔ IsNode node }
{}

/// Over whatever a node was told, wrote and asked: a replica is believed to have no more than where the node began, what
/// letters told that replica, what it said of itself, and where the node was when its timer ran out; and no more than it
/// says, once it answered that it lacks what a letter was told over.
pub fn beliefs_are_of_what_was_sent()
    ensures bounded { BeliefsAreBounded }
    ensures lacking { LackingIsBelieved }
{}
