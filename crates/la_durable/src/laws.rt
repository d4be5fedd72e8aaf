// What holds of nodes that crash and are started again: laws that no code runs.
ghost use Rattle.la_durable.specs.Nodes.{LinesGrowViews};
ghost use Rattle.la_durable.specs.Still.{StillCallsChangeNothing};
ghost use Rattle.la_durable.specs.Restarts.{RestartsTakeCalls};

/// A node that is started again, on what a crash left at any moment of the calls that it was handed since it
/// last gave something out ([`la_journal::laws`], clauses `any_moment` and `leads`), is where some calls of
/// these lines lead, one after another, whose mail is lost. So its group is live with it (`la_world::live`,
/// `unheard_calls_keep_live`, `parcel_receipts_keep_live`): a crash is no event of a group.
pub fn restarts_take_calls()
    ensures { RestartsTakeCalls }
{}

/// No line's step makes the view smaller: so a shelf whose view lies in the node's may absorb that after any.
pub fn views_grow()
    ensures { LinesGrowViews }
{}

/// A call that is answered as still leaves the node as it was: a journal without its line leads to the same.
#[tactic(auto, using(crate::specs::Still::still_calls))]
pub fn still_calls_change_nothing()
    ensures { StillCallsChangeNothing }
{}
