ghost use Rattle.std.specs.Prelude.{◌≡◌, ◌≢◌, true, false, ◌<◌, ◌≤◌, length, [], ◌∷◌, IsOk, IfOk};
ghost use Rattle.std.specs.Prelude.{IfErr, IfSome, OnOk, OnErr, Some, None, if◌then◌else◌};
ghost use Rattle.std.specs.Option.{option_copied};
ghost use Rattle.la_set.specs.Histories.{Histories};
ghost use Rattle.la_set.specs.Join.{IsCompatible};
ghost use Rattle.la_set.specs.Counts.{HasCounts, counts_of};
ghost use Rattle.la_set.specs.AgreeWithin.{AgreeWithin};
ghost use Rattle.la_acceptor.specs.declared.reply.Reply.TheVariants as replied;
ghost use Rattle.la_acceptor.specs.Answer.{accepted_next};
ghost use Rattle.la_proposer.specs.declared.proposer.TheConstants.{MAX_CAP};
ghost use Rattle.la_proposer.specs.Majority.{votes_of};
ghost use Rattle.la_proposer.specs.ProposerState.{ProposerState, submitted, op_on};
ghost use Rattle.la_proposer.specs.Refusals.{SubmissionSpends};
ghost use Rattle.la_replica.specs.declared.instance.Instance.{Instance as InstanceOf};
ghost use Rattle.la_replica.specs.declared.out.Said.TheVariants.{Answered};
ghost use Rattle.la_replica.specs.Whole.{lent_message, lent_body, whole_out, Adds};
ghost use Rattle.la_replica.specs.Received.{lent_told, told_at, rebuilt_at, made_at, received_at};
ghost use Rattle.la_replica.specs.Received.{StandsAt, AgreesAt, IsUnbuilt, IsLentAt, IsKnownWithin};
ghost use Rattle.la_replica.specs.Bases.{offered_by, AreToldBy, AddsTold};
ghost use Rattle.la_replica.specs.Messages.{reply_of, reply_to};
ghost use Rattle.la_replica.specs.Steps.{fresh, answers};
ghost use Rattle.la_replica.specs.Steps.{last_learnt_after};
ghost use Rattle.la_replica.specs.Refusals.{IsSubmissionRefusal, IsHearingRefusal, IsMessageRefusal};
ghost use Rattle.la_replica.specs.Memory.{IsFreeHearing, IsFreeMessage};
ghost use Rattle.la_replica.specs.Changes.{proposer_after, IsProposerFrom, learnt_next, step_by};
ghost use Rattle.la_replica.specs.Changes.{candidate, learnt_in_view, IsVerdictOn};
ghost use Rattle.la_replica.specs.Prepared.{IsAdmittedAt, AdmitsReply, WhereDecided, KeepsProposer};
ghost use Rattle.la_replica.specs.Prepared.{PreparesMessageAt, PreparesReplyAt, PreparesTellAt};
ghost use Rattle.la_replica.specs.Prepared.{PreparesSubmissionAt, AreToldNext};
ghost use Rattle.la_replica.specs.Again.{again_in};

use crate::sender::Sender;
use crate::whole::{Told, Whole, WholeBody};
use crate::{Body, Change, Mail, Message, Out, ReplicaError, Said};
use la_acceptor::{Acceptor, Reply};
use la_proposer::{Ballot, Heard, Proposer, Verdict, Votes};
use la_set::{Counts, Op, SetError, UpdateId, UpdateSet};
use std::alloc::{AllocError, Global};

/// What a replica keeps of one instance: from these it is taken up again, by
/// [`Replica::resumed`](crate::Replica::resumed).
#[derive(Drop)]
pub struct Instance {
    pub acceptor: Acceptor,
    pub proposer: Proposer,
    /// The ballot that was learnt last.
    pub learnt: Option<Ballot>,
}

impl Instance {
    pub(crate) fn new(alloc: Global, own: u8, cap: u32, votes: Votes) -> Instance
        requires known { own < length (votes_of votes) }
        requires few { length (votes_of votes) ≤ 8 }
        requires some { 1 ≤ cap }
        requires most { cap ≤ MAX_CAP }
        ensures { result ≡ fresh (votes_of votes) own cap }
    {
        Instance {
            acceptor: Acceptor::new(alloc),
            proposer: Proposer::new(alloc, votes.len() as u8, own, cap, votes),
            learnt: None,
        }
    }

    pub(crate) fn copy(&self) -> Result<Instance, AllocError>
        ensures { IfOk result (λ copy. copy ≡ self.now) }
    {
        Ok(Instance {
            acceptor: self.acceptor.copy()?,
            proposer: self.proposer.copy()?,
            learnt: match &self.learnt {
                Some(learnt) => Some(learnt.copy()?),
                None => None,
            },
        })
    }

    // Prepares a submission: its ballot opens, or it waits.
    pub(crate) fn prepare_submission(
        &self,
        alloc: Global,
        sender: &Sender,
        object: u16,
        op: Op,
    ) -> Result<(Out, Change), ReplicaError>
        requires own { self.now.proposer.own ≡ sender.now.from }
        ensures ok { IfOk result (PreparesSubmissionAt sender.now self.now (op_on object op)) }
        ensures room { IfOk result (λ _. submitted self.now.proposer < self.now.proposer.cap) }
        ensures spares { IfOk result (λ _. ¬ SubmissionSpends self.now.proposer) }
        ensures error { IfErr result (IsSubmissionRefusal self.now.proposer) }
    {
        // a hint to the prover, which costs no more than a look: its contract tells what holds of every proposer
        let _state = self.proposer.status();
        let (opened, change) = self.proposer.prepare_submission(object, op)?;
        let mut mail = Mail::new(alloc);
        sender.offer_next(&mut mail, &opened, &self.proposer, &change)?;
        let said = match opened {
            Some(ballot) => Said::Opened(ballot),
            None => Said::Held(UpdateId {
                replica: sender.from,
                number: self.proposer.submitted() + 1,
            }),
        };
        let nothing = Change::nothing(sender.instance);
        let change = Change {
            proposer: Some(change),
            ..nothing
        };
        Ok((Out { said, mail }, change))
    }

    // The delta of a message that is looked at, the set over which it is, and the one beside that: of
    // what is accepted and the ballot's set the other one.
    fn told<'a>(&'a self, message: &'a Message) -> Option<Told<'a>>
        ensures told { lent_told result ≡ told_at self.now message.now }
        ensures beside { (known : Counts) → AgreeWithin known self.now.acceptor self.now.proposer.updates
            → IfSome result (λ t. AgreeWithin known t.over.now t.beside.now) }
    {
        match &message.body {
            Body::Offer(delta) => Some(Told {
                over: self.acceptor.accepted(),
                beside: self.proposer.updates(),
                delta,
            }),
            Body::No(delta) => {
                if !self.proposer.counts(message.from, message.ballot) {
                    return None;
                }
                Some(Told {
                    over: self.proposer.updates(),
                    beside: self.acceptor.accepted(),
                    delta,
                })
            }
            Body::Yes | Body::Tell(_) => None,
        }
    }

    // What that delta stands for. What is accepted and the ballot's set are known to have the same
    // within these counts.
    pub(crate) fn rebuilt(
        &self,
        message: &Message,
        known: Counts,
    ) -> Result<Option<UpdateSet>, SetError>
        requires { AgreeWithin known self.now.acceptor self.now.proposer.updates }
        ensures ok { IfOk result (λ set. set ≡ rebuilt_at self.now message.now) }
        ensures stands { IfOk result (λ _. StandsAt self.now message.now) }
        ensures free { told_at self.now message.now ≡ None → IsOk result }
        ensures error { IfErr result (IsUnbuilt self.now message.now) }
    {
        match self.told(message) {
            Some(told) => Ok(Some(told.over.with_beside(told.delta, told.beside, known)?)),
            None => Ok(None),
        }
    }

    // The same of a message that is known to stand and to agree here, where its delta was made from a
    // list: else the delta lends it.
    pub(crate) fn made(&self, message: &Message) -> Result<Option<UpdateSet>, AllocError>
        requires stands { StandsAt self.now message.now }
        requires agrees { AgreesAt self.now message.now }
        ensures ok { IfOk result (λ set. set ≡ made_at self.now message.now) }
        ensures free { IsLentAt self.now message.now → IsOk result }
    {
        let Some(told) = self.told(message) else {
            return Ok(None);
        };
        if told.over.lent_by(told.delta).is_some() {
            return Ok(None);
        }
        Ok(Some(told.over.with_agreeing(told.delta)?))
    }

    // The message with its whole set: what its delta lends, or this, which was made.
    pub(crate) fn whole<'a>(
        &'a self,
        message: &'a Message,
        made: Option<&'a UpdateSet>,
    ) -> Whole<'a>
        requires stands { StandsAt self.now message.now }
        requires agrees { AgreesAt self.now message.now }
        requires made { option_copied made ≡ made_at self.now message.now }
        ensures { lent_message result ≡ received_at self.now message.now }
    {
        let Some(told) = self.told(message) else {
            return Whole::of(message, None);
        };
        match told.over.lent_by(told.delta) {
            Some(lent) => Whole::of(message, Some(lent)),
            None => Whole::of(message, made),
        }
    }

    // Whether what a message to this instance asks for would be done, memory apart; and where it is
    // a reply, the verdict on it. Its set is known to have within these counts what is here.
    pub(crate) fn admit_message(
        &self,
        message: Whole<'_>,
        known: Counts,
    ) -> Result<Option<Verdict>, ReplicaError>
        requires group { message.from < length self.now.proposer.votes }
        requires known { IsKnownWithin self.now known (lent_body message.body) }
        ensures ok { IfOk result (IsAdmittedAt self.now (lent_message message.entry)) }
        ensures error { (view : Histories)
            → IfErr result (IsMessageRefusal self.now view (lent_message message.entry)) }
        ensures memory { result ≢ Err ReplicaError.Memory }
    {
        match message.body {
            WholeBody::Offer(offered) => {
                self.acceptor.admit_offer_beyond(offered, known)?;
                Ok(None)
            }
            WholeBody::Yes | WholeBody::No(_) => self.admit_reply(message, known),
            WholeBody::Tell(_) => Ok(None),
        }
    }

    // Whether a reply would be heard, memory apart, and the verdict on it.
    fn admit_reply(
        &self,
        message: Whole<'_>,
        known: Counts,
    ) -> Result<Option<Verdict>, ReplicaError>
        requires group { message.from < length self.now.proposer.votes }
        requires known { IsKnownWithin self.now known (lent_body message.body) }
        ensures ok { IfOk result (AdmitsReply self.now.proposer (lent_message message.entry)) }
        ensures error { IfErr result (IsHearingRefusal self.now.proposer (lent_message message.entry)
            (reply_of (lent_message message.entry))) }
        ensures memory { result ≢ Err ReplicaError.Memory }
    {
        let (from, ballot) = (message.from, message.ballot);
        let refusal = message.refusal();
        Ok(
            self.proposer
                .admit_reply_beyond(from, ballot, refusal, known)?,
        )
    }

    // The verdict on a message, where it is a reply.
    pub(crate) fn verdict(&self, message: Whole<'_>) -> Option<Verdict>
        ensures { IsVerdictOn self.now (lent_message message.entry) result
            (lent_body message.entry.body) }
    {
        match message.body {
            WholeBody::Offer(_) | WholeBody::Tell(_) => None,
            WholeBody::Yes | WholeBody::No(_) => {
                let (from, ballot) = (message.from, message.ballot);
                self.proposer.verdict(from, ballot, message.refusal())
            }
        }
    }

    // In instance 0, the set that may become the view by a message with this verdict.
    pub(crate) fn candidate<'a>(
        &'a self,
        verdict: Option<Verdict>,
        message: Whole<'a>,
    ) -> Option<&'a UpdateSet>
        ensures { option_copied result ≡ candidate self.now verdict (lent_message message.entry) }
    {
        if message.instance != 0 {
            return None;
        }
        match message.body {
            WholeBody::Offer(_) => None,
            WholeBody::Yes | WholeBody::No(_) => match verdict {
                Some(Verdict::Learns) => Some(self.proposer.updates()),
                _ => None,
            },
            WholeBody::Tell(told) => Some(told),
        }
    }

    // Prepares what a message to this instance asks for, which is admitted with this verdict, and
    // by which the view is taken or not.
    #[inline(always)]
    pub(crate) fn prepare(
        &self,
        alloc: Global,
        sender: &Sender,
        message: Whole<'_>,
        verdict: Option<Verdict>,
        taken: bool,
    ) -> Result<(Out, Change), AllocError>
        requires admitted { IsAdmittedAt self.now (lent_message message) verdict }
        requires instance { sender.now.instance ≡ message.instance }
        ensures ok { IfOk result (PreparesMessageAt sender.now self.now verdict taken (lent_message message.entry)) }
        ensures told { IfOk result (AreToldNext self.now message.entry.instance (offered_by (lent_message message.entry))) }
        ensures free { WhereDecided taken (candidate self.now verdict (lent_message message.entry))
            (λ view. IsFreeMessage self.now view (lent_message message.entry) → IsOk result) }
    {
        match message.body {
            WholeBody::Offer(offered) => self.prepare_answer(alloc, message, offered),
            WholeBody::Yes | WholeBody::No(_) => {
                self.prepare_hearing(alloc, sender, message, verdict, taken)
            }
            WholeBody::Tell(told) => prepare_tell(alloc, sender, told, taken),
        }
    }

    // Prepares the answer to an offer.
    #[inline(always)]
    fn prepare_answer(
        &self,
        alloc: Global,
        message: Whole<'_>,
        offered: &UpdateSet,
    ) -> Result<(Out, Change), AllocError>
        requires { IsCompatible self.now.acceptor offered.now }
        ensures step { IfOk result (λ prepared. (view : Histories) → answers self.now view
            (lent_message message.entry) offered.now ≡ step_by self.now view (whole_out prepared.0) prepared.1) }
        ensures keeps { IfOk result (λ prepared. KeepsProposer message.entry.instance prepared.1) }
        ensures told { (p : ProposerState) → IfOk result (λ prepared.
            AreToldBy p message.entry.instance (counts_of offered.now) prepared.0.mail) }
        ensures free { offered.now ≡ self.now.acceptor → IsOk result }
    {
        let (reply, accepted) = self.acceptor.prepare_offer(offered)?;
        let out = answered(alloc, message, offered, reply)?;
        let nothing = Change::nothing(message.instance);
        Ok((
            out,
            Change {
                accepted,
                ..nothing
            },
        ))
    }

    // Prepares to hear a reply. One that does not count, or leaves the ballot open, sends nothing.
    #[inline(always)]
    fn prepare_hearing(
        &self,
        alloc: Global,
        sender: &Sender,
        message: Whole<'_>,
        verdict: Option<Verdict>,
        taken: bool,
    ) -> Result<(Out, Change), AllocError>
        requires { AdmitsReply self.now.proposer (lent_message message) verdict }
        ensures ok { IfOk result (PreparesReplyAt sender.now self.now verdict taken (lent_message message.entry)) }
        ensures told { (offered : Counts) → IfOk result (AreToldNext self.now sender.now.instance offered) }
        ensures free { WhereDecided taken (learnt_in_view sender.now.instance self.now.proposer verdict)
            (λ _. IsFreeHearing self.now.proposer (lent_message message.entry) → IsOk result) }
    {
        if verdict.is_none() {
            let silent = Out::silent(alloc, Said::Ignored);
            return Ok((silent, Change::nothing(sender.instance)));
        }
        let reply = message.reply()?;
        let (from, ballot) = (message.from, message.ballot);
        let (heard, change) = self.proposer.prepare_reply(verdict, from, ballot, reply)?;
        let mail = sender.mail(alloc, ballot, &heard, &self.proposer, &change)?;
        let learnt = learnt_copy(ballot, &heard)?;
        let view = set_if(taken, self.proposer.updates())?;
        let agreed = view.as_ref().map(|learnt| learnt.counts());
        let said = Said::from(heard);
        let change = Change {
            proposer: Some(change),
            learnt,
            view,
            agreed,
            ..Change::nothing(sender.instance)
        };
        Ok((Out { said, mail }, change))
    }

    // Adds what a timer should send once more: the open ballot's offers to those of whom no reply
    // has counted, and the tells of what was learnt last.
    pub(crate) fn again(&self, mail: &mut Mail, sender: &Sender) -> Result<(), AllocError>
        ensures ok { OnOk result (Adds mail.old mail.new (again_in sender.now self.now)) }
        ensures told { (offered : Counts) → OnOk result (AddsTold self.now.proposer
            sender.now.instance offered mail.old mail.new) }
        ensures nothing { again_in sender.now self.now ≡ [] → IsOk result }
    {
        sender.offer_again(mail, &self.proposer)?;
        sender.tell_again(mail, &self.learnt)
    }

    // Does what was prepared from this very instance. It can't be refused, and takes no memory.
    #[inline(always)]
    pub(crate) fn commit(
        &mut self,
        accepted: Option<UpdateSet>,
        proposer: Option<la_proposer::Change>,
        learnt: Option<Ballot>,
    )
        requires { IsProposerFrom self.old.proposer proposer }
        ensures { self.new ≡ record {
          acceptor = accepted_next self.old.acceptor accepted;
          proposer = proposer_after self.old.proposer proposer;
          learnt = learnt_next self.old.learnt learnt;
        } }
    {
        self.acceptor.commit(accepted);
        if let Some(change) = proposer {
            self.proposer.commit(change);
        }
        if let Some(learnt) = learnt {
            self.learnt = Some(learnt);
        }
    }
}

// A copy of the ballot that was learnt, which has this number, if one was.
fn learnt_copy(number: u32, heard: &Heard) -> Result<Option<Ballot>, AllocError>
    ensures ok { IfOk result (λ learnt. learnt ≡ last_learnt_after None number heard.now) }
    ensures free { heard.now ≡ Heard.Counted → IsOk result }
{
    match heard {
        Heard::Learnt(learnt, _) => Ok(Some(Ballot {
            number,
            updates: learnt.copy()?,
        })),
        Heard::Counted | Heard::Ignored | Heard::Refined(_) => Ok(None),
    }
}

// A copy of a set, where this says so.
fn set_if(taken: bool, set: &UpdateSet) -> Result<Option<UpdateSet>, AllocError>
    ensures ok { IfOk result (λ copy. copy ≡ (if taken then Some set.now else None)) }
    ensures free { taken ≡ false → IsOk result }
{
    if taken {
        Ok(Some(set.copy()?))
    } else {
        Ok(None)
    }
}

// The answer to an offer: the reply is said, and a copy goes back.
#[inline(always)]
fn answered(
    alloc: Global,
    message: Whole<'_>,
    offered: &UpdateSet,
    reply: Reply,
) -> Result<Out, AllocError>
    requires { (accepted : Histories) → reply ≡ replied.No accepted → HasCounts accepted (counts_of offered.now) }
    ensures ok { IfOk result (λ out. whole_out out
        ≡ record { said = Answered reply; mail = reply_to (lent_message message.entry) reply ∷ [] }) }
    ensures told { (p : ProposerState) → IfOk result (λ out.
        AreToldBy p message.entry.instance (counts_of offered.now) out.mail) }
    ensures free { reply ≡ Reply.Yes → IsOk result }
{
    let sent = message.answered(offered.counts(), &reply)?;
    Ok(Out {
        said: Said::Answered(reply),
        mail: Mail::one(alloc, sent),
    })
}

// Prepares to take a told set as the view, or not.
#[inline(always)]
fn prepare_tell(
    alloc: Global,
    sender: &Sender,
    told: &UpdateSet,
    taken: bool,
) -> Result<(Out, Change), AllocError>
    ensures ok { (x : InstanceOf) → IfOk result (PreparesTellAt sender.now x taken told.now) }
    ensures keeps { IfOk result (λ prepared. KeepsProposer sender.now.instance prepared.1) }
    ensures told { IfOk result (λ prepared. prepared.0.mail ≡ []) }
    ensures free { taken ≡ false → IsOk result }
{
    if !taken {
        let said = if sender.instance == 0 {
            Said::Kept
        } else {
            Said::Ignored
        };
        return Ok((Out::silent(alloc, said), Change::nothing(sender.instance)));
    }
    let said = Said::Took(told.copy()?);
    let view = Some(told.copy()?);
    let nothing = Change::nothing(sender.instance);
    Ok((Out::silent(alloc, said), Change { view, ..nothing }))
}
