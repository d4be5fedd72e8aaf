// Once all threads are joined: one member sees what all others have seen, and keeps its view. So
// whatever sets have certificates with any of them are comparable.
ghost use Rattle.std.specs.Prelude.{◌≡◌, ℕ, Some, All, map, slice_get};
ghost use Rattle.std.specs.List.{AllZip};
ghost use Rattle.la_runner.specs.Following.{acceptors_of};
ghost use Rattle.la_runner.specs.Instances.{InstanceState, state_of};
ghost use Rattle.la_runner.specs.Invariant.{IsMember};
ghost use Rattle.la_runner.specs.Members.{IsOfGroup};
ghost use Rattle.la_runner.specs.Notes.{pass_told, Meets, AllMeet};
ghost use Rattle.la_runner.specs.Runs.{log_back};
ghost use Rattle.la_runner.specs.Sound.{IsSound};
ghost use Rattle.la_runner.specs.Together.{HasSeen, SeesMore, IsSameLog, AreSeen};

use crate::group::Row;
use crate::instance::Instance;
use crate::{Group, Log, Member};
use la_object::Replicated;
use la_shared::SharedAcceptor;

impl Instance {
    // Each pass of another instance has then seen what the pass of the same acceptor here has.
    fn show(&mut self, acceptors: &[SharedAcceptor], to: &mut Instance)
        requires sound { IsSound to.old.proposer to.old.passes.items }
        requires from { acceptors_of self.old.passes.items ≡ acceptors.now }
        requires to { acceptors_of to.old.passes.items ≡ acceptors.now }
        ensures same { state_of self.new ≡ state_of self.old }
        ensures met { Meets (map pass_told self.old.passes.items) (state_of to.old) (state_of to.new) }
    {
        for at in 0..acceptors.len() {
            let acceptor = &acceptors[at];
            let note = acceptor.note(&mut self.passes[at]);
            acceptor.meet(&mut to.passes[at], note);
        }
    }
}

// The same of each instance.
fn show_instances(rows: &[Row], from: &mut Vec<Instance>, to: &mut Vec<Instance>)
    requires sound { (i : ℕ) (x : InstanceState)
        → slice_get (map state_of to.old.items) i ≡ Some x → IsSound x.proposer x.passes }
    requires from { map (λ x. acceptors_of x.passes.items) from.old.items
        ≡ map (λ r. r.acceptors.items) rows.now }
    requires to { map (λ x. acceptors_of x.passes.items) to.old.items
        ≡ map (λ r. r.acceptors.items) rows.now }
    ensures same { map state_of from.new.items ≡ map state_of from.old.items }
    ensures met { AllMeet (map (λ x. map pass_told x.passes.items) from.old.items)
        (map state_of to.old.items) (map state_of to.new.items) }
{
    for at in 0..rows.len() {
        from[at].show(&rows[at].acceptors, &mut to[at]);
    }
}

impl Group {
    // One member has then seen what another one has, and keeps its view. It takes no memory.
    fn show(&self, from: &mut Member, to: &mut Member)
        requires from { IsOfGroup self.now from.old }
        requires to { IsOfGroup self.now to.old }
        ensures same { from.new ≡ from.old }
        ensures more { SeesMore to.old to.new }
        ensures shown { HasSeen from.old to.new }
    {
        show_instances(&self.rows, &mut from.instances, &mut to.instances);
    }
}

// The last member has then seen what each of the others has.
fn show_last<B: Replicated>(group: &Group, others: &mut [Log<B>], last: &mut Member)
    requires of { All (λ l. IsOfGroup group.now l.member) others.old }
    requires last { IsOfGroup group.now last.old }
    ensures same { others.new ≡ others.old }
    ensures more { SeesMore last.old last.new }
    ensures shown { All (λ l. HasSeen l.member last.new) others.old }
{
    // a hint to the prover: its contract tells what holds of every member
    let _own = last.replica();
    for at in 0..others.len() {
        group.show(&mut others[at].member, last);
    }
}

// The last log's member has then seen what all have.
pub(crate) fn show_all<B: Replicated>(group: &Group, logs: &mut [Log<B>])
    requires { All (λ l. IsOfGroup group.now l.member × IsMember l.member) logs.old }
    ensures same { AllZip IsSameLog (map log_back logs.old) (map log_back logs.new) }
    ensures seen { AreSeen (map log_back logs.new) }
{
    let Some((last, others)) = logs.split_last_mut() else {
        return;
    };
    show_last(group, others, &mut last.member);
}
