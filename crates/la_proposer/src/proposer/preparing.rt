// A step in two parts: preparing it changes nothing and may be refused, committing it can't be.
ghost use Rattle.std.specs.Prelude.{◌≡◌, ◌<◌, true, false, not, length, IsOk, IfOk, IfErr};
ghost use Rattle.la_proposer.specs.ProposerState.{submitted, op_on};
ghost use Rattle.la_proposer.specs.ProposerState.{with_reply, verdict_of};
ghost use Rattle.la_proposer.specs.ProposerState.{heard_counting, after_counting, counts};
ghost use Rattle.la_proposer.specs.ProposerState.{refined_ballot, after_refinement, is_nothing};
ghost use Rattle.la_proposer.specs.ProposerState.{learning_opens, after_learning, noted};
ghost use Rattle.la_proposer.specs.Refusals.{SubmissionSpends, IsSubmitRefusal, IsVerdictOf};
ghost use Rattle.la_proposer.specs.Refusals.{ReplySpends, OnlyCounts, StepSpends};
ghost use Rattle.la_proposer.specs.Refusals.{IsHearable, IsCountable};
ghost use Rattle.la_proposer.specs.Changes.{after_commit, IsPreparedFrom};
ghost use Rattle.la_proposer.specs.Changes.{Leads, PreparesSubmission};
ghost use Rattle.la_proposer.specs.Changes.{PreparesHearing, PreparesReply};

use super::{MAX_BALLOTS, Proposer};
use crate::change::{Change, Told};
use crate::joins::{add_next, join_refusal, join_refusals, taking};
use crate::tally::{Counted, Verdict};
use crate::{Ballot, Heard, ProposerError};
use la_acceptor::Reply;
use la_set::Op;
use std::alloc::AllocError;

impl Proposer {
    /// Prepares a submission, with the errors of [`Proposer::submit`] in its order: the ballot that
    /// is to open, if one is, and the change.
    pub fn prepare_submission(
        &self,
        object: u16,
        op: Op,
    ) -> Result<(Option<Ballot>, Change), ProposerError>
        ensures ok { IfOk result (PreparesSubmission self.now (op_on object op)) }
        ensures room { IfOk result (λ _. submitted self.now < self.now.cap) }
        ensures spares { IfOk result (λ _. ¬ SubmissionSpends self.now) }
        ensures error { IfErr result (IsSubmitRefusal self.now) }
    {
        self.admit_submission()?;
        Ok(self.prepare_admitted(object, op)?)
    }

    // Prepares a submission that has room and a number.
    pub(super) fn prepare_admitted(
        &self,
        object: u16,
        op: Op,
    ) -> Result<(Option<Ballot>, Change), AllocError>
        requires room { submitted self.now < self.now.cap }
        requires spares { ¬ SubmissionSpends self.now }
        ensures { IfOk result (PreparesSubmission self.now (op_on object op)) }
    {
        let mut submissions = self.submissions.copy()?;
        add_next(&mut submissions, self.own, object, op)?;
        if self.is_asking {
            return Ok((None, Change::Holds(submissions)));
        }
        let ballot = taking(&self.last, &submissions)?;
        let opened = ballot.copy()?;
        Ok((Some(opened), Change::Submits(ballot, submissions)))
    }

    /// Prepares to hear a reply that is admitted, with the verdict on it: what is heard, and the
    /// change. It compares no updates, and is refused for want of memory alone. A reply that is
    /// ignored takes none, nor one that counts and leaves the ballot open.
    ///
    /// The cost is that of copies that share; of a learning that opens a ballot also that of one
    /// [`UpdateSet::join_compatible`], and of a refinement that of one for each counted refusal.
    #[inline(always)]
    pub fn prepare_reply(
        &self,
        verdict: Option<Verdict>,
        from: u8,
        ballot: u32,
        reply: Reply,
    ) -> Result<(Heard, Change), AllocError>
        requires verdict { IsVerdictOf self.now from ballot reply verdict }
        requires hearable { IsHearable self.now from ballot reply }
        ensures ignored { counts self.now from ballot ≡ false → IsOk result }
        ensures counted { OnlyCounts self.now from ballot reply → IsOk result }
        ensures ok { IfOk result (PreparesReply self.now from ballot reply) }
    {
        match verdict {
            None => Ok((Heard::Ignored, self.unchanged())),
            Some(verdict) => self.prepare_counting(verdict, from, reply),
        }
    }

    /// Does what was prepared from this very proposer, at constant cost. It takes no memory. A change
    /// that is dropped is a step that did not happen.
    #[inline(always)]
    pub fn commit(&mut self, change: Change)
        requires { IsPreparedFrom self.old change }
        ensures { self.new ≡ after_commit self.old change }
    {
        // a hint to the prover, which costs no more than a look: the capacity is at least `INLINE_TALLY`
        let _at_least_inline = self.tally.capacity();
        match change {
            Change::Nothing => {}
            Change::Holds(submissions) => self.submissions = submissions,
            Change::Submits(ballot, submissions) => {
                self.last = ballot;
                self.is_asking = true;
                self.tally.clear();
                self.submissions = submissions;
            }
            Change::Counts(counted) => {
                let told = Told::by(counted.from, &self.last.updates, &counted.reply);
                self.reported[counted.from as usize] = told.counts;
                self.tally.push_reserved(counted);
            }
            Change::Opens(ballot, told) => {
                self.reported[told.from as usize] = told.counts;
                self.last = ballot;
                self.is_asking = true;
                self.tally.clear();
            }
            Change::Closes(told) => {
                self.reported[told.from as usize] = told.counts;
                self.is_asking = false;
                self.tally.clear();
            }
        }
    }

    fn unchanged(&self) -> Change
        ensures { Leads self.now result self.now }
    {
        // a hint to the prover, of no cost: of a value that is read the invariant holds
        let _own = self.own;
        Change::Nothing
    }

    // Prepares what a reply that counts comes to, with this verdict.
    fn prepare_counting(
        &self,
        verdict: Verdict,
        from: u8,
        reply: Reply,
    ) -> Result<(Heard, Change), AllocError>
        requires countable { IsCountable self.now from reply }
        requires verdict { verdict ≡ verdict_of (with_reply self.now from reply) }
        requires spares { ¬ ReplySpends (with_reply self.now from reply) }
        ensures counted { verdict ≡ Verdict.Waits → IsOk result }
        ensures ok { IfOk result (PreparesHearing self.now (heard_counting (with_reply self.now from reply))
            (after_counting (with_reply self.now from reply))) }
    {
        match verdict {
            Verdict::Waits => Ok((Heard::Counted, self.counting(from, reply))),
            Verdict::Refines => self.prepare_refinement(from, reply),
            Verdict::Learns => self.prepare_learning(from, &reply),
        }
    }

    fn counting(&self, from: u8, reply: Reply) -> Change
        requires { IsCountable self.now from reply }
        ensures { Leads self.now result (with_reply self.now from reply) }
    {
        // a hint to the prover, of no cost: of a value that is read the invariant holds
        let _own = self.own;
        Change::Counts(Counted { from, reply })
    }

    // Prepares to end the open ballot, and to open the one that joins what was refused, by this
    // reply too.
    fn prepare_refinement(&self, from: u8, reply: Reply) -> Result<(Heard, Change), AllocError>
        requires countable { IsCountable self.now from reply }
        requires left { self.now.number < MAX_BALLOTS }
        ensures { IfOk result (PreparesHearing self.now
            (Heard.Refined (refined_ballot (with_reply self.now from reply)))
            (after_refinement (with_reply self.now from reply))) }
    {
        let told = Told::by(from, &self.last.updates, &reply);
        let mut updates = self.last.updates.copy()?;
        join_refusals(&mut updates, self.tally.as_slice())?;
        join_refusal(&mut updates, &reply)?;
        let ballot = Ballot {
            number: self.last.number + 1,
            updates,
        };
        let opened = ballot.copy()?;
        Ok((Heard::Refined(opened), Change::Opens(ballot, told)))
    }

    // Prepares to learn the open ballot's set, by this reply. Where submissions wait a ballot opens
    // at once.
    fn prepare_learning(&self, from: u8, reply: &Reply) -> Result<(Heard, Change), AllocError>
        requires in_group { from < length self.now.votes }
        requires left { ¬ StepSpends (not (is_nothing self.now.waiting)) self.now }
        ensures { IfOk result (PreparesHearing self.now
            (Heard.Learnt self.now.updates (learning_opens self.now))
            (after_learning (noted self.now from reply.now))) }
    {
        let told = Told::by(from, &self.last.updates, reply);
        let learnt = self.last.updates.copy()?;
        if self.buffered() == 0 {
            return Ok((Heard::Learnt(learnt, None), Change::Closes(told)));
        }
        let ballot = taking(&self.last, &self.submissions)?;
        let opened = ballot.copy()?;
        Ok((
            Heard::Learnt(learnt, Some(opened)),
            Change::Opens(ballot, told),
        ))
    }
}
