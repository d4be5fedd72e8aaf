// How a group and its members are made.
ghost use Rattle.std.specs.Prelude.{◌≡◌, ◌<◌, ◌≤◌, List, All, map, length, IfOk};
ghost use Rattle.la_shared.specs.Passes.{AcceptorName};
ghost use Rattle.la_proposer.specs.declared.proposer.TheConstants.{MAX_CAP};
ghost use Rattle.la_proposer.specs.Majority.{votes_of};
ghost use Rattle.la_runner.specs.Instances.{state_of};
ghost use Rattle.la_runner.specs.Starting.{newcomer, member_cap, IsNewInstance, IsNewMember};
ghost use Rattle.la_runner.specs.Starting.{group_of_rows, AreFirsts, AreMembersOf, MayMakeMembers};

use crate::Member;
use crate::group::Row;
use crate::instance::Instance;
use la_proposer::{Proposer, Votes};
use la_set::UpdateSet;
use la_shared::{Pass, SharedAcceptor};
use std::alloc::{AllocError, Global};

/// The first pass of each acceptor of an instance, from which members' passes come.
#[derive(Drop)]
pub(crate) struct Firsts {
    pub passes: Vec<Pass>,
}

// So many acceptors, and a first pass of each.
fn row(alloc: Global, replicas: u8) -> Result<(Row, Firsts), AllocError>
    ensures size { IfOk result (λ made. length made.0.acceptors.items ≡ replicas) }
    ensures passes { IfOk result (λ made.
        made.1.passes.items ≡ map newcomer made.0.acceptors.items) }
{
    let mut acceptors = Vec::with_capacity(alloc, replicas as usize)?;
    let mut passes = Vec::with_capacity(alloc, replicas as usize)?;
    for number in 0..replicas {
        let (acceptor, pass) = SharedAcceptor::new(alloc, number)?;
        acceptors.push(acceptor)?;
        passes.push(pass)?;
    }
    Ok((Row { acceptors }, Firsts { passes }))
}

// Another pass of each acceptor.
fn passes(
    alloc: Global,
    acceptors: &[SharedAcceptor],
    firsts: &mut Vec<Pass>,
) -> Result<Vec<Pass>, AllocError>
    requires { firsts.old.items ≡ map newcomer acceptors.now }
    ensures same { firsts.new.items ≡ firsts.old.items }
    ensures passes { IfOk result (λ made. made.items ≡ map newcomer acceptors.now) }
{
    let mut made = Vec::with_capacity(alloc, acceptors.len())?;
    for at in 0..acceptors.len() {
        let acceptor = &acceptors[at];
        let pass = acceptor.another(&mut firsts[at]);
        made.push(pass)?;
    }
    Ok(made)
}

impl Instance {
    // A member that has done nothing there.
    fn new(alloc: Global, own: u8, cap: u32, votes: Votes, passes: Vec<Pass>) -> Instance
        requires known { own < length (votes_of votes) }
        requires few { length (votes_of votes) ≤ 8 }
        requires some { 1 ≤ cap }
        requires most { cap ≤ MAX_CAP }
        ensures { (row : List AcceptorName) → passes.items ≡ map newcomer row
            → IsNewInstance (votes_of votes) own cap row (state_of result) }
    {
        Instance {
            proposer: Proposer::new(alloc, votes.len() as u8, own, cap, votes),
            passes,
            learnt: None,
            view: UpdateSet::new(alloc),
        }
    }
}

// So many rows of acceptors, and their first passes.
pub fn rows(
    alloc: Global,
    replicas: u8,
    instances: usize,
) -> Result<(Vec<Row>, Vec<Firsts>), AllocError>
    ensures count { IfOk result (λ made. length made.0.items ≡ instances) }
    ensures sizes { IfOk result (λ made.
        All (λ r. length r.acceptors.items ≡ replicas) made.0.items) }
    ensures firsts { IfOk result (λ made. AreFirsts made.1.items made.0.items) }
{
    let mut made = Vec::with_capacity(alloc, instances)?;
    let mut firsts = Vec::with_capacity(alloc, instances)?;
    for _ in 0..instances {
        let (acceptors, passes) = row(alloc, replicas)?;
        made.push(acceptors)?;
        firsts.push(passes)?;
    }
    Ok((made, firsts))
}

// How many updates a member may submit in an instance.
fn cap_of(cap: u32, instance: usize) -> u32
    ensures { result ≡ member_cap cap instance }
{
    if instance == 0 { cap } else { 1 }
}

// A member that has done nothing.
fn member(
    alloc: Global,
    rows: &[Row],
    firsts: &mut Vec<Firsts>,
    own: u8,
    cap: u32,
    votes: Votes,
) -> Result<Member, AllocError>
    requires known { own < length (votes_of votes) }
    requires may { MayMakeMembers (votes_of votes) cap rows.now firsts.old.items }
    ensures firsts { AreFirsts firsts.new.items rows.now }
    ensures new { IfOk result (IsNewMember (group_of_rows (votes_of votes) rows.now) cap own) }
{
    let mut instances = Vec::with_capacity(alloc, rows.len())?;
    for at in 0..rows.len() {
        let seats = passes(alloc, &rows[at].acceptors, &mut firsts[at].passes)?;
        let most = cap_of(cap, at);
        let instance = Instance::new(alloc, own, most, votes, seats);
        instances.push(instance)?;
    }
    Ok(Member {
        votes,
        replica: own,
        instances,
    })
}

// The members of a group, the last one first.
pub fn members(
    alloc: Global,
    rows: &[Row],
    firsts: &mut Vec<Firsts>,
    replicas: u8,
    cap: u32,
    votes: Votes,
) -> Result<Vec<Member>, AllocError>
    requires known { replicas ≡ length (votes_of votes) }
    requires may { MayMakeMembers (votes_of votes) cap rows.now firsts.old.items }
    ensures count { IfOk result (λ made. length made.items ≡ replicas) }
    ensures new { IfOk result (λ made. AreMembersOf (votes_of votes) cap rows.now made.items) }
{
    let mut made = Vec::with_capacity(alloc, replicas as usize)?;
    for before in 0..replicas {
        let own = replicas - 1 - before;
        let new = member(alloc, rows, firsts, own, cap, votes)?;
        made.push(new)?;
    }
    Ok(made)
}
