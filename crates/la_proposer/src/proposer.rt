ghost use Rattle.std.specs.Prelude.{◌≡◌, ◌≢◌, true, false, ◌<◌, ◌≤◌, length, IfOk, IfErr, OnOk};
ghost use Rattle.std.specs.Prelude.{OnErr, option_copied};
ghost use Rattle.la_set.specs.Histories.{Histories, empty};
ghost use Rattle.la_set.specs.Inclusion.{IsSubset};
ghost use Rattle.la_proposer.specs.Majority.{votes_of};
ghost use Rattle.la_proposer.specs.Tally.{reply_carrying, has_counted};
ghost use Rattle.la_proposer.specs.ProposerState.{start, submitted, op_on, status_of};
ghost use Rattle.la_proposer.specs.ProposerState.{submission_opens, after_submission, counts};
ghost use Rattle.la_proposer.specs.ProposerState.{reported};
ghost use Rattle.la_proposer.specs.Changes.{after_commit, IsPreparedFrom};
ghost use Rattle.la_proposer.specs.Refusals.{SubmissionSpends, IsSubmitRefusal, IsReplyRefusal};
ghost use Rattle.la_proposer.specs.Refusals.{IsHearable, HearsReply, IsVerdictOf, IsFreeAnswer};
ghost use Rattle.la_proposer.specs.Refusals.{IsKnownRefused, IsKnownReply};
ghost use Rattle.la_proposer.specs.Invariant.{IsProposerState};

mod admitting;
mod preparing;
mod resuming;

use crate::tally::{self, Counted, Verdict};
use crate::{Ballot, Change, Heard, ProposerError, Status, Votes};
use la_acceptor::Reply;
use la_set::{Counts, Op, UpdateSet};
use smallvec::SmallVec;
use std::alloc::{AllocError, Global};
use std::marker::Model;

/// The largest number that a ballot may have.
pub const MAX_BALLOTS: u32 = 8_000_000;

/// The largest cap on a proposer's submissions.
pub const MAX_CAP: u32 = 1_000_000;

/// How many replies count in a ballot without memory: as many as a group may have acceptors.
pub const INLINE_TALLY: usize = 8;

/// Asks a group's acceptors to acknowledge its updates, and learns sets that a majority
/// acknowledged.
///
/// It keeps its own submissions as one set. Those that wait are the last of them, which the last
/// ballot's set has not.
#[derive(Drop)]
pub struct Proposer {
    own: u8,
    cap: u32,
    votes: Votes,
    last: Ballot,
    is_asking: bool,
    tally: SmallVec<Counted, INLINE_TALLY>,
    submissions: UpdateSet,
    reported: [Counts; 8],
}

impl Model for Proposer {
    ghost use Rattle.la_proposer.specs.ProposerState.{ProposerState};

    ghost Value = { ProposerState };

    ghost use Rattle.la_proposer.specs.Fields.{stands_for, HoldsInvariant};

    ghost view = { stands_for };

    ghost invariant = { HoldsInvariant };
}

impl Proposer {
    /// A proposer that has submitted nothing, for replica `own` of a group with these votes. It
    /// takes no memory.
    pub fn new(alloc: Global, replicas: u8, own: u8, cap: u32, votes: Votes) -> Proposer
        requires group { replicas ≡ length (votes_of votes) }
        requires known { own < replicas }
        requires some { 1 ≤ cap }
        requires few { cap ≤ MAX_CAP }
        ensures { result ≡ start (votes_of votes) own cap empty }
    {
        Proposer {
            own,
            cap,
            votes,
            last: Ballot {
                number: 0,
                updates: UpdateSet::new(alloc),
            },
            is_asking: false,
            tally: SmallVec::new(alloc),
            submissions: UpdateSet::new(alloc),
            reported: [Counts::zero(); 8],
        }
    }

    /// A copy. It is refused for want of memory alone. The cost is that of copying two sets and the
    /// counted refusals, whose updates are shared.
    pub fn copy(&self) -> Result<Proposer, AllocError>
        ensures { IfOk result (λ copy. copy ≡ self.now) }
    {
        Ok(Proposer {
            own: self.own,
            cap: self.cap,
            votes: self.votes,
            last: self.last.copy()?,
            is_asking: self.is_asking,
            tally: tally::copy_tally(&self.tally)?,
            submissions: self.submissions.copy()?,
            reported: self.reported,
        })
    }

    /// Whether a ballot is open, and its number. Its contract also tells what holds of every
    /// proposer: so a caller learns it at any time.
    pub fn status(&self) -> Status
        ensures status { result ≡ status_of self.now }
        ensures state { IsProposerState self.now }
    {
        if self.is_asking {
            Status::Asking(self.last.number)
        } else {
            Status::Idle
        }
    }

    /// How many updates it may submit: 1 to [`MAX_CAP`].
    pub fn cap(&self) -> u32
        ensures { result ≡ self.now.cap }
    {
        self.cap
    }

    /// The last ballot's set; empty before the first.
    pub fn updates(&self) -> &UpdateSet
        ensures { result.now ≡ self.now.updates }
    {
        &self.last.updates
    }

    /// How many submissions no ballot has taken.
    pub fn buffered(&self) -> u32
        ensures { result ≡ length self.now.waiting }
    {
        self.submissions.count_of(self.own) - self.last.updates.count_of(self.own)
    }

    /// How many updates it has submitted: those that a ballot has taken, and those that wait.
    pub fn submitted(&self) -> u32
        ensures { result ≡ submitted self.now }
    {
        self.submissions.count_of(self.own)
    }

    /// Whether a reply of this acceptor has counted in the open ballot: `false` where none is open,
    /// or the acceptor is out of the group.
    pub fn has_counted(&self, from: u8) -> bool
        ensures counted { result ≡ has_counted self.now.tally from }
        ensures idle { self.now.is_asking ≡ false → result ≡ false }
        ensures in_group { length self.now.votes ≤ from → result ≡ false }
    {
        tally::has_counted(self.tally.as_slice(), from)
    }

    /// How many updates an acceptor has told that it has, in the last reply of it that counted, in
    /// whichever ballot that was: an acknowledgement tells those of the ballot's set, a refusal those
    /// of the set that came with it. Zero where no reply of it has counted. The cost is constant.
    pub fn reported(&self, from: u8) -> Counts
        ensures { result ≡ reported self.now from }
    {
        match self.reported.get(from as usize) {
            Some(told) => *told,
            None => Counts::zero(),
        }
    }

    /// What [`Proposer::reported`] answers of an acceptor once a change that was prepared from this
    /// proposer is committed. The cost is constant.
    pub fn reported_after(&self, change: &Change, from: u8) -> Counts
        requires { IsPreparedFrom self.now change.now }
        ensures { result ≡ reported (after_commit self.now change.now) from }
    {
        let Some(told) = change.told(self.updates()) else {
            return self.reported(from);
        };
        if told.from != from {
            return self.reported(from);
        }
        told.counts
    }

    /// Submits an update for an object, under the proposer's next number. An idle proposer opens a
    /// ballot, whose set is the last ballot's with the update added: it is answered, to be offered
    /// to every acceptor. While a ballot is open the update waits, and `None` is answered.
    ///
    /// In this order: `Full` comes where the proposer has submitted its cap; `BallotsSpent` where a
    /// ballot would open with a number over [`MAX_BALLOTS`]; `Memory`. After each nothing is
    /// submitted. It is [`Proposer::prepare_submission`] and then [`Proposer::commit`].
    ///
    /// The cost is that of adding one update to a set; of a ballot also that of a
    /// [`UpdateSet::join_compatible`] and of copies that share.
    pub fn submit(&mut self, object: u16, op: Op) -> Result<Option<Ballot>, ProposerError>
        ensures opened { IfOk result (λ ballot.
            ballot ≡ submission_opens self.old (op_on object op)) }
        ensures ok { OnOk result (self.new ≡ after_submission self.old (op_on object op)) }
        ensures room { OnOk result (submitted self.old < self.old.cap) }
        ensures spares { IfOk result (λ _. ¬ SubmissionSpends self.old) }
        ensures error { IfErr result (IsSubmitRefusal self.old) }
        ensures err { OnErr result (self.new ≡ self.old) }
    {
        let (opened, change) = self.prepare_submission(object, op)?;
        self.commit(change);
        Ok(opened)
    }

    /// Whether a submission would be taken, memory apart: with the errors of [`Proposer::submit`],
    /// in its order. It takes no memory, and `Memory` never comes. The cost is constant.
    pub fn admit_submission(&self) -> Result<(), ProposerError>
        ensures room { OnOk result (submitted self.now < self.now.cap) }
        ensures spares { OnOk result (¬ SubmissionSpends self.now) }
        ensures error { IfErr result (IsSubmitRefusal self.now) }
        ensures memory { result ≢ Err ProposerError.Memory }
    {
        if self.submitted() >= self.cap {
            return Err(ProposerError::Full);
        }
        if !self.is_asking && self.last.number >= MAX_BALLOTS {
            return Err(ProposerError::BallotsSpent);
        }
        Ok(())
    }

    /// Hears a reply of an acceptor to a ballot.
    ///
    /// `NoSuchReplica` comes where the acceptor is out of the group. Then the reply is answered
    /// `Ignored`, and takes no memory, where no ballot is open, it is to another ballot than the
    /// open one, or its acceptor has counted there. Then `Clash` comes for a `No` whose set has,
    /// under some id, another update than the ballot's set or than a `No` that has counted, or an
    /// update of the proposer's own that the ballot's set lacks; it names the least such id. Else
    /// the reply counts, and with it the votes decide: a majority of `Yes` learns the ballot's set,
    /// and where submissions wait opens a ballot at once; otherwise a majority of replies with a
    /// `No` among them refines. `BallotsSpent` comes where a ballot that opens would have a number
    /// over [`MAX_BALLOTS`], and `Memory` after all else. After each the proposer is as before, and
    /// the reply has not counted. A reply that counts, and leaves the ballot open, takes no memory
    /// either.
    ///
    /// It is [`Proposer::admit_reply`], [`Proposer::prepare_reply`] and [`Proposer::commit`], at the
    /// cost of the three.
    pub fn reply(&mut self, from: u8, ballot: u32, reply: Reply) -> Result<Heard, ProposerError>
        ensures ok { IfOk result (λ heard. HearsReply self.old from ballot reply heard self.new) }
        ensures free { IsFreeAnswer self.old from ballot reply result }
        ensures error { IfErr result (IsReplyRefusal self.old from ballot reply) }
        ensures err { OnErr result (self.new ≡ self.old) }
    {
        self.hear(from, ballot, reply, Counts::zero())
    }

    /// Hears a reply as [`Proposer::reply`] does, with its answers and its refusals, and what
    /// stands after them, where the refused set, if the reply has one, contains the last ballot's
    /// set, as that of an acceptor does to which it was offered: only what the refused set has
    /// beyond the ballot's is compared, and the cost is that.
    pub fn reply_grown(
        &mut self,
        from: u8,
        ballot: u32,
        reply: Reply,
    ) -> Result<Heard, ProposerError>
        requires grown { (refused : Histories) → reply ≡ Reply.No refused → IsSubset self.old.updates refused }
        ensures ok { IfOk result (λ heard. HearsReply self.old from ballot reply heard self.new) }
        ensures free { IsFreeAnswer self.old from ballot reply result }
        ensures error { IfErr result (IsReplyRefusal self.old from ballot reply) }
        ensures err { OnErr result (self.new ≡ self.old) }
    {
        let base = self.updates().counts();
        self.hear(from, ballot, reply, base)
    }

    // Hears a reply whose refused set, if it has one, has within these counts what the last ballot's
    // set has.
    fn hear(
        &mut self,
        from: u8,
        ballot: u32,
        reply: Reply,
        base: Counts,
    ) -> Result<Heard, ProposerError>
        requires known { IsKnownReply base self.old.updates reply }
        ensures ok { IfOk result (λ heard. HearsReply self.old from ballot reply heard self.new) }
        ensures free { IsFreeAnswer self.old from ballot reply result }
        ensures error { IfErr result (IsReplyRefusal self.old from ballot reply) }
        ensures err { OnErr result (self.new ≡ self.old) }
    {
        let verdict = self.admit_reply_beyond(from, ballot, refusal_of(&reply), base)?;
        let (heard, change) = self.prepare_reply(verdict, from, ballot, reply)?;
        self.commit(change);
        Ok(heard)
    }

    /// Whether a reply would be heard, memory apart: a `No` with this refused set, or else a `Yes`.
    /// It has the errors of [`Proposer::reply`], in its order. It takes no memory, and `Memory`
    /// never comes. The cost is that of comparing the set of a `No` that counts with the sets known
    /// here.
    pub fn admit_reply(
        &self,
        from: u8,
        ballot: u32,
        refusal: Option<&UpdateSet>,
    ) -> Result<Option<Verdict>, ProposerError>
        ensures verdict { IfOk result (IsVerdictOf self.now from ballot (reply_carrying refusal.entry)) }
        ensures hearable { OnOk result (IsHearable self.now from ballot (reply_carrying refusal.entry)) }
        ensures error { IfErr result (IsReplyRefusal self.now from ballot (reply_carrying refusal.entry)) }
        ensures memory { result ≢ Err ProposerError.Memory }
    {
        self.admit_reply_beyond(from, ballot, refusal, Counts::zero())
    }

    /// Whether a reply would be heard, memory apart, as [`Proposer::admit_reply`] says it and with
    /// its errors, where the refused set is known to have within these counts what the last
    /// ballot's set has, as one that was rebuilt over that has within its delta's base: only what
    /// comes beyond them is compared, with the ballot's set and with each refused set that has
    /// counted, and the cost is that. It takes no memory, and `Memory` never comes.
    pub fn admit_reply_beyond(
        &self,
        from: u8,
        ballot: u32,
        refusal: Option<&UpdateSet>,
        base: Counts,
    ) -> Result<Option<Verdict>, ProposerError>
        requires { IsKnownRefused base self.now.updates (option_copied refusal) }
        ensures verdict { IfOk result (IsVerdictOf self.now from ballot (reply_carrying refusal.entry)) }
        ensures hearable { OnOk result (IsHearable self.now from ballot (reply_carrying refusal.entry)) }
        ensures error { IfErr result (IsReplyRefusal self.now from ballot (reply_carrying refusal.entry)) }
        ensures memory { result ≢ Err ProposerError.Memory }
    {
        if from as usize >= self.votes.len() {
            return Err(ProposerError::NoSuchReplica);
        }
        let Some(verdict) = self.verdict(from, ballot, refusal) else {
            return Ok(None);
        };
        if let Some(id) = self.clash(refusal, base) {
            return Err(ProposerError::Clash(id));
        }
        if self.opens_by(verdict) && self.last.number >= MAX_BALLOTS {
            return Err(ProposerError::BallotsSpent);
        }
        Ok(Some(verdict))
    }

    /// Whether a reply of this acceptor to this ballot would count: the ballot is the open one, and
    /// the acceptor has not counted there. The cost is constant.
    pub fn counts(&self, from: u8, ballot: u32) -> bool
        ensures { result ≡ counts self.now from ballot }
    {
        self.is_asking && self.last.number == ballot && !self.has_counted(from)
    }

    /// What a reply would come to, without hearing it: with this refused set, or else a `Yes`. It
    /// is the verdict of the counted replies with this one among them, or `None` where it would not
    /// count, and be ignored. The refused set is not looked at. It takes no memory, and the cost is
    /// constant.
    #[inline(always)]
    pub fn verdict(&self, from: u8, ballot: u32, refusal: Option<&UpdateSet>) -> Option<Verdict>
        ensures { IsVerdictOf self.now from ballot (reply_carrying refusal.entry) result }
    {
        if !self.counts(from, ballot) {
            return None;
        }
        let tally = self.tally.as_slice();
        Some(tally::verdict_with(&self.votes, tally, from, refusal))
    }
}

// The set that a reply refuses an offer with, if it does.
fn refusal_of(reply: &Reply) -> Option<&UpdateSet>
    ensures { reply_carrying result ≡ reply.now }
{
    match reply {
        Reply::Yes => None,
        Reply::No(refused) => Some(refused),
    }
}
