// A proposer that is taken apart, and taken up again.
ghost use Rattle.std.specs.Prelude.{◌≡◌, Some, IsTrue, IfOk};
ghost use Rattle.la_proposer.specs.Majority.{votes_of};
ghost use Rattle.la_proposer.specs.Changes.{last_of};
ghost use Rattle.la_proposer.specs.Resuming.{state_from, resumed_from, submissions_of, may_resume};

use super::Proposer;
use crate::tally::copy_tally;
use crate::{Ballot, Counted, ProposerParts, Votes};
use la_set::{Counts, UpdateSet};
use std::alloc::AllocError;

impl Proposer {
    /// The proposer with these parts: one that goes on where another stopped. `None` comes exactly
    /// where no proposer has them: where one of them is out of its limits; where submissions wait, or
    /// replies have counted, though no ballot is open; where a counted reply is of no acceptor of
    /// the group, or its acceptor's second, or does not fit the ballot's set or another counted reply;
    /// or where the submissions are not the proposer's own, from the first on. Then the parts are dropped.
    ///
    /// It takes no memory. The cost is that of comparing the ballot's set with the submissions and with
    /// each counted refusal, and any two of these.
    pub fn resumed(parts: ProposerParts) -> Option<Proposer>
        ensures { result ≡ resumed_from parts }
    {
        if !parts.may_resume() {
            return None;
        }
        Some(Proposer {
            own: parts.own,
            cap: parts.cap,
            votes: parts.votes,
            last: parts.last,
            is_asking: parts.is_asking,
            tally: parts.tally,
            submissions: parts.submissions,
            reported: parts.reported,
        })
    }

    /// Its parts, from which it is taken up again, the same. It is refused for want of memory alone. The
    /// cost is that of [`Proposer::copy`].
    pub fn parts(&self) -> Result<ProposerParts, AllocError>
        ensures state { IfOk result (λ parts. state_from parts ≡ self.now) }
        ensures resumed { IfOk result (λ parts. resumed_from parts ≡ Some self.now) }
    {
        Ok(ProposerParts {
            own: self.own,
            cap: self.cap,
            votes: self.votes,
            last: self.last.copy()?,
            is_asking: self.is_asking,
            tally: copy_tally(&self.tally)?,
            submissions: self.submissions.copy()?,
            reported: self.reported,
        })
    }

    /// Which replica of its group it is, at constant cost.
    pub fn own(&self) -> u8
        ensures { result ≡ self.now.own }
    {
        self.own
    }

    /// The votes of its group, at constant cost.
    pub fn votes(&self) -> Votes
        ensures { votes_of result ≡ self.now.votes }
    {
        self.votes
    }

    /// The last ballot, open or not: number 0 and the empty set before the first. The cost is
    /// constant.
    pub fn last(&self) -> &Ballot
        ensures { result.now ≡ last_of self.now }
    {
        &self.last
    }

    /// Whether the last ballot is open, at constant cost.
    pub fn is_asking(&self) -> bool
        ensures { result ≡ self.now.is_asking }
    {
        self.is_asking
    }

    /// The replies that have counted in the open ballot, the oldest first; none where no ballot is
    /// open. The cost is constant.
    pub fn tally(&self) -> &[Counted]
        ensures { result.now ≡ self.now.tally }
    {
        self.tally.as_slice()
    }

    /// All that it has submitted, as one set, which has no other replica's updates: what the last
    /// ballot's set lacks of it waits. The cost is constant. Its contract also tells that the proposer
    /// may be taken up again from its parts, at any time.
    pub fn submissions(&self) -> &UpdateSet
        ensures submissions { result.now ≡ submissions_of self.now }
        ensures resumable { IsTrue (may_resume self.now) }
    {
        &self.submissions
    }

    /// Of each acceptor, what [`Proposer::reported`] answers of it, at constant cost.
    pub fn all_reported(&self) -> [Counts; 8]
        ensures { result ≡ self.now.reported }
    {
        self.reported
    }
}
