ghost use Rattle.std.specs.Prelude.{◌≡◌, ◌≢◌, ◌<◌, ◌≤◌, ◌↔◌, ℕ, nat_le, length, IsTrue};
ghost use Rattle.la_set.specs.Histories.{count};
ghost use Rattle.la_proposer.specs.Majority.{votes_of, how_many};
ghost use Rattle.std.specs.List.{list_all};
ghost use Rattle.la_proposer.specs.Tally.{has_counted};
ghost use Rattle.la_proposer.specs.Resuming.{state_from, parts_may_resume, is_all_submitted};
ghost use Rattle.la_proposer.specs.Resuming.{may_resume, is_within_limits, keeps_only_asking};
ghost use Rattle.la_proposer.specs.Resuming.{have_counted_rightly, may_have_counted};
ghost use Rattle.la_proposer.specs.Resuming.{are_compatible, reply_agrees, replies_agree};
ghost use Rattle.la_proposer.specs.Resuming.{agree_in_pairs, has_no_more_own};

use crate::proposer::{INLINE_TALLY, MAX_BALLOTS, MAX_CAP};
use crate::tally::{self, Counted};
use crate::{Ballot, Votes};
use la_acceptor::Reply;
use la_set::{Counts, REPLICAS, UpdateSet};
use smallvec::SmallVec;

/// All that a proposer keeps, in its parts: from them it is taken up again, by
/// [`Proposer::resumed`](crate::Proposer::resumed).
#[derive(Drop)]
pub struct ProposerParts {
    /// Which replica of its group it is.
    pub own: u8,
    /// How many updates it may submit.
    pub cap: u32,
    /// The votes of its group.
    pub votes: Votes,
    /// The last ballot: number 0 and the empty set before the first.
    pub last: Ballot,
    /// Whether that ballot is open.
    pub is_asking: bool,
    /// The replies that have counted in it, the oldest first.
    pub tally: SmallVec<Counted, INLINE_TALLY>,
    /// All that it has submitted, and no other replica's updates. What the last ballot's set lacks of
    /// them waits.
    pub submissions: UpdateSet,
    /// Of each acceptor, the counts that its last reply that counted told: zero where it has none.
    pub reported: [Counts; 8],
}

impl ProposerParts {
    // Whether a proposer may be taken up again from them.
    pub(crate) fn may_resume(&self) -> bool
        ensures { result ≡ parts_may_resume self.now }
    {
        self.are_of_a_state() && self.hold_all_submitted()
    }

    // Whether the state that they are those of is one in which a proposer may be taken up again.
    #[tactic(auto, unfolding(crate::specs::Resuming::may_resume))]
    fn are_of_a_state(&self) -> bool
        ensures { result ≡ may_resume (state_from self.now) }
    {
        self.is_within_limits() && self.keeps_only_asking() && self.have_counted_rightly()
    }

    // How many submissions no ballot has taken.
    fn waiting(&self) -> u32
        ensures value { result ≡ length (state_from self.now).waiting }
        ensures limit { result ≤ 1000000 }
    {
        let taken = self.last.updates.count_of(self.own);
        self.submissions.count_of(self.own).saturating_sub(taken)
    }

    fn is_within_limits(&self) -> bool
        ensures { result ≡ is_within_limits (state_from self.now) }
    {
        let replicas = self.votes.len();
        let submitted = self.last.updates.count_of(self.own) + self.waiting();
        (self.own as usize) < replicas
            && replicas <= 8
            && self.cap <= MAX_CAP
            && self.last.number <= MAX_BALLOTS
            && submitted <= self.cap
            && self.reported.len() == 8
    }

    fn keeps_only_asking(&self) -> bool
        ensures { result ≡ keeps_only_asking (state_from self.now) }
    {
        self.is_asking || self.waiting() == 0 && self.tally.as_slice().len() == 0
    }

    fn have_counted_rightly(&self) -> bool
        ensures { result ≡ have_counted_rightly (state_from self.now) }
    {
        self.each_may_have_counted()
            && self.have_counted_once()
            && agree_in_pairs(self.tally.as_slice())
    }

    fn each_may_have_counted(&self) -> bool
        ensures { result
            ≡ list_all (may_have_counted (state_from self.now)) (state_from self.now).tally }
    {
        let tally = self.tally.as_slice();
        tally.iter().all(|counted| self.may_have_counted(counted))
    }

    // Whether there are no more counted replies than acceptors of which one has counted.
    fn have_counted_once(&self) -> bool
        ensures { result ≡ nat_le (length (state_from self.now).tally)
            (how_many (length (votes_of self.now.votes)) (has_counted (state_from self.now).tally)) }
    {
        let tally = self.tally.as_slice();
        tally.len() <= acceptors_of(tally, self.votes.len())
    }

    fn may_have_counted(&self, counted: &Counted) -> bool
        ensures { result ≡ may_have_counted (state_from self.now) counted.now }
    {
        let updates = &self.last.updates;
        (counted.from as usize) < self.votes.len()
            && reply_agrees(updates, &counted.reply)
            && has_no_more_own(updates, self.own, &counted.reply)
    }

    // Whether the submissions are all of the proposer's own, and no others.
    fn hold_all_submitted(&self) -> bool
        requires { self.now.own < 8 }
        ensures { result ≡ is_all_submitted (state_from self.now) self.now.submissions }
    {
        let (updates, submissions) = (&self.last.updates, &self.submissions);
        if updates.count_of(self.own) > submissions.count_of(self.own) {
            return false;
        }
        if !are_alone(self.own, submissions) {
            return false;
        }
        are_compatible(updates, submissions)
    }
}

// Whether a set has updates of this replica alone.
fn are_alone(own: u8, set: &UpdateSet) -> bool
    ensures { IsTrue result ↔ ((r : ℕ) → r < 8 → r ≢ own → count set.now r ≡ 0) }
{
    for replica in 0..REPLICAS {
        if replica != own && set.count_of(replica) > 0 {
            return false;
        }
    }
    true
}

// Whether no id has two updates, in two sets.
fn are_compatible(one: &UpdateSet, other: &UpdateSet) -> bool
    ensures { result ≡ are_compatible one.now other.now }
{
    one.first_clash(other).is_none()
}

fn reply_agrees(set: &UpdateSet, reply: &Reply) -> bool
    ensures { result ≡ reply_agrees set.now reply.now }
{
    match reply {
        Reply::Yes => true,
        Reply::No(refused) => are_compatible(set, refused),
    }
}

fn replies_agree(one: &Reply, other: &Reply) -> bool
    ensures { result ≡ replies_agree one.now other.now }
{
    match one {
        Reply::Yes => true,
        Reply::No(refused) => reply_agrees(refused, other),
    }
}

fn has_no_more_own(set: &UpdateSet, own: u8, reply: &Reply) -> bool
    ensures { result ≡ has_no_more_own set.now own reply.now }
{
    match reply {
        Reply::Yes => true,
        Reply::No(refused) => refused.count_of(own) <= set.count_of(own),
    }
}

// Whether no id has two updates, in any two of the counted replies.
fn agree_in_pairs(tally: &[Counted]) -> bool
    ensures { result ≡ agree_in_pairs tally.now }
{
    let mut rest = tally;
    while let Some((first, others)) = rest.split_first() {
        if !agrees_with_all(&first.reply, others) {
            return false;
        }
        rest = others;
    }
    true
}

fn agrees_with_all(reply: &Reply, others: &[Counted]) -> bool
    ensures { result ≡ list_all (λ d. replies_agree reply.now d.reply) others.now }
{
    others
        .iter()
        .all(|other| replies_agree(reply, &other.reply))
}

// Of how many acceptors of a group replies have counted.
fn acceptors_of(tally: &[Counted], replicas: usize) -> usize
    requires { replicas ≤ 8 }
    ensures { result ≡ how_many replicas (has_counted tally.now) }
{
    let mut acceptors = 0;
    for replica in 0..replicas as u8 {
        if tally::has_counted(tally, replica) {
            acceptors += 1;
        }
    }
    acceptors
}
