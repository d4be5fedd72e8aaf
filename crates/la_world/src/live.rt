// What holds of every group of live nodes, over whatever transport: laws over the definitions, which no
// code runs. From `live_nodes_are_one_history` on they are for programs that hold nodes and a network: an
// invariant over loops.
ghost use Rattle.la_world.specs.LiveGroups.{LiveGroupsStandForEvents, LiveGroupsKeepAll};
ghost use Rattle.la_world.specs.LiveGroups.{LiveLearntAreComparable, LiveViewsAreComparable};
ghost use Rattle.la_world.specs.LiveGroups.{LiveNodesAreOneHistory, NewNodesAreLive};
ghost use Rattle.la_world.specs.LiveGroups.{NetworksMayLose, CallsKeepLive, UnheardCallsKeepLive};
ghost use Rattle.la_world.specs.LiveParcels.{ParcelReceiptsKeepLive, LettersTellWhatWasSent};
ghost use Rattle.la_world.specs.Together.{NewReplicasAreTogether, CallsKeepTogether, FewerLettersKeepTogether};
ghost use Rattle.la_world.specs.Together.{LostCallsKeepTogether};
ghost use Rattle.la_world.specs.Together.{RepeatsKeepTogether};
ghost use Rattle.la_world.specs.Moments.{LiveGroupsKeepAllOver, TogetherKeepAll, TogetherKeepAllOfEvents};

pub use la_node::laws::{kept_lists_are_played_again, kept_lists_lead_on};

/// A group that calls lead to stands for the events that these calls are: for the accepted updates,
/// proposals and receipts, one after another, whatever the network loses, repeats or brings late.
pub fn groups_stand_for_events()
    ensures { LiveGroupsStandForEvents }
{}

/// A group that calls lead to keeps all that a world promises of the events that these calls are: of
/// what is learnt, of its nodes' views, and of what they return from adopt-commit objects. That is `events`, of each
/// moment and every instance. By `all` nodes keep what is promised over all moments: of what any of them had come to
/// after some calls, and any had after these or more.
pub fn groups_keep_all_promises()
    ensures events { LiveGroupsKeepAll }
    ensures all { LiveGroupsKeepAllOver }
{}

/// Any two sets that nodes said they learnt in one instance are comparable.
pub fn learnt_sets_are_comparable()
    ensures { LiveLearntAreComparable }
{}

/// Any two views are comparable: of whatever nodes, one at any moment and the other at the same or a
/// later one.
pub fn views_are_comparable()
    ensures { LiveViewsAreComparable }
{}

/// Of the views of live nodes any two are comparable.
pub fn live_nodes_are_one_history()
    ensures { LiveNodesAreOneHistory }
{}

/// Nodes as [`Node::new`](crate::Node::new) makes them, one for each replica of a group, are live, with
/// nothing on their network.
pub fn new_nodes_are_live()
    ensures { NewNodesAreLive }
{}

/// Live nodes stay so whatever the network loses, holds twice or brings late, and whatever deltas it
/// makes anew: of a message one that says the same is left.
pub fn networks_may_lose()
    ensures { NetworksMayLose }
{}

/// Nodes are live after any call that one of them accepts, with what it gives out on the network: as it was
/// sent, or over whatever bases of its sets, be it true or not that the receivers have them. A message that is
/// received is one that is on the network, and stays there, as if the network held it twice.
pub fn calls_keep_live()
    ensures { CallsKeepLive }
{}

/// Nodes are live after the receipt of a parcel of a message on the network, whatever was believed of its
/// receiver.
pub fn parcel_receipts_keep_live()
    ensures { ParcelReceiptsKeepLive }
{}

/// The letters of a node's mail ([`Links::letters`](la_node::Links::letters)) are parcels of that mail, told over
/// other bases of its sets, whatever is known of their receivers: with these nodes are live after the call that
/// sent it, by `calls_keep_live` or `parcel_receipts_keep_live`.
pub fn letters_tell_what_was_sent()
    ensures { LettersTellWhatWasSent }
{}

/// Nodes are live after any calls of one of them whose mail is lost: so a node that is started again in a state
/// to which such calls led keeps its group live; and so does a call that leaves its replica as it was, a
/// question or an object more or less, since it is none of these.
pub fn unheard_calls_keep_live()
    ensures { UnheardCallsKeepLive }
{}

/// Replicas of a group in which nothing has happened are together.
pub fn new_replicas_are_together()
    ensures { NewReplicasAreTogether }
{}

/// Replicas that run each by itself stay together over any call of one of them, whatever it believes of the receivers
/// of its letters; where some letters never go out; over calls of which nothing was given out, as of one that was killed
/// and started again; and where one sends again what waits for an answer, or some of it. All calls that any of them
/// accepted are known, the newest first: those too of which nothing was given out.
pub fn replicas_stay_together()
    ensures calls { CallsKeepTogether }
    ensures fewer { FewerLettersKeepTogether }
    ensures lost { LostCallsKeepTogether }
    ensures again { RepeatsKeepTogether }
{}

/// Of replicas that are together, over whatever losses, repeats, reorderings and restarts, `all` has what they keep
/// over all moments: of what any of them showed after some calls, and any showed after these or more. Views, and sets
/// that were learnt, are one chain, and were submitted; no view shrinks; an outcome stays, and outcomes agree; what
/// holds an update has all that was shown before it was submitted. By `events` they keep at each moment what a live
/// group keeps ([`groups_keep_all_promises`]), in every instance.
pub fn replicas_together_keep_promises()
    ensures all { TogetherKeepAll }
    ensures events { TogetherKeepAllOfEvents }
{}
