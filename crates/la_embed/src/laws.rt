// What holds of hosts, over whatever transport, and of what is handed on: laws that no code runs.
ghost use Rattle.la_embed.specs.Journals.{CrashesKeepWhatWasTold};
ghost use Rattle.la_embed.specs.Learnt.{EachIsHandedOnce};
ghost use Rattle.la_embed.specs.Together.{NewHostsAreTogether, StepsKeepHostsTogether, LinesKeepHostsTogether};
ghost use Rattle.la_embed.specs.Together.{OwnMailKeepsHostsTogether, RepeatsKeepHostsTogether};
ghost use Rattle.la_embed.specs.Together.{OthersKeepHostsTogether, RestartsKeepHostsTogether};
ghost use Rattle.la_embed.specs.Together.{HostsKeepAll, HostsKeepAllOfEvents};

use la_durable::NodeMachine;

/// Hosts of a group are together, and stay so: over each step of one of them, whatever line it takes, be it late,
/// again, in any order or never, what it sends to itself, and what it sends again. Whatever is pulled from one of them
/// was sent by it. Of a host whose mail was lost for want of memory this holds too, as if a transport had lost it; and of
/// one that crashed and was recovered ([`crashes_keep_what_was_told`]). All calls that they took are known: one of a step,
/// only messages of a line or of own mail, and after a crash those that the journal's lines say.
pub fn hosts_stay_together()
    ensures new { NewHostsAreTogether }
    ensures calls { StepsKeepHostsTogether }
    ensures lines { LinesKeepHostsTogether }
    ensures own { OwnMailKeepsHostsTogether }
    ensures again { RepeatsKeepHostsTogether }
    ensures other { OthersKeepHostsTogether }
    ensures restarts { RestartsKeepHostsTogether }
{
    // hints to the prover: of replicas, and of lines
    la_world::live::new_replicas_are_together();
    la_world::live::replicas_stay_together();
    la_wire::laws::letters_are_read_back_or_not();
}

/// Of hosts that are together, over all moments, and whichever crashed and was recovered: any two views, and sets that
/// were learnt, are comparable, and made of what was submitted; no view shrinks, and an outcome stays; and all else that
/// [`la_world::live::replicas_together_keep_promises`] says, by the same words.
pub fn hosts_together_keep_promises()
    ensures all { HostsKeepAll }
    ensures events { HostsKeepAllOfEvents }
{
    // a hint to the prover: of replicas
    la_world::live::replicas_together_keep_promises();
}

/// Where a host hands on what it learnt, each update as the one that comes next, until none is left of its view, it has
/// handed on of each replica just its updates in the view, each once, in the order of their numbers, however the view
/// grew meanwhile: so hosts whose views are equal have handed on the same.
pub fn each_is_handed_once()
    ensures { EachIsHandedOnce }
{}

/// A crash at any moment between two calls of [`Host::synced`](crate::Host::synced), whatever it leaves of what was being
/// put behind the file, loses nothing that was told: the file leads to what the node was when all was last on the disk,
/// by the first some of the calls that it took since. What is found so is what
/// [`Host::recover`](crate::Host::recover) plays.
pub fn crashes_keep_what_was_told()
    ensures { CrashesKeepWhatWasTold }
{
    // a hint to the prover: of what nothing is read
    la_journal::laws::unread_bytes_change_nothing::<NodeMachine>();
}
