ghost use Rattle.std.specs.Prelude.{◌≡◌, ◌≢◌, IsOk, IfOk, IfErr, OnOk, OnErr};
ghost use Rattle.la_set.specs.Histories.{Histories, empty};
ghost use Rattle.la_set.specs.Join.{IsCompatible, join};
ghost use Rattle.la_set.specs.Counts.{within};
ghost use Rattle.la_acceptor.specs.Answer.{answer, accepted_next};
ghost use Rattle.la_acceptor.specs.Refusals.{IsOfferRefusal};

use crate::{AcceptorError, Reply};
use la_set::{Counts, UpdateSet};
use std::alloc::{AllocError, Global};
use std::marker::Model;

/// One acceptor. It holds the accepted set: the union of all offers that it answered.
#[derive(Drop)]
pub struct Acceptor {
    accepted: UpdateSet,
}

impl Model for Acceptor {
    ghost use Rattle.la_set.specs.Histories.{Histories};

    ghost Value = { Histories };

    ghost view = { λ a. a.accepted };
}

impl Acceptor {
    /// An acceptor that has accepted nothing. It takes no memory.
    pub fn new(alloc: Global) -> Acceptor
        ensures { result ≡ empty }
    {
        Acceptor {
            accepted: UpdateSet::new(alloc),
        }
    }

    /// The acceptor that has accepted this set: one that is taken up again. It takes no memory, and
    /// the cost is constant.
    pub fn resumed(accepted: UpdateSet) -> Acceptor
        ensures { result ≡ accepted }
    {
        Acceptor { accepted }
    }

    /// The accepted set, at constant cost.
    pub fn accepted(&self) -> &UpdateSet
        ensures { result.now ≡ self.now }
    {
        &self.accepted
    }

    /// A copy, at the cost of [`UpdateSet::copy`].
    pub fn copy(&self) -> Result<Acceptor, AllocError>
        ensures { IfOk result (λ copy. copy ≡ self.now) }
    {
        Ok(Acceptor {
            accepted: self.accepted.copy()?,
        })
    }

    /// Answers an offer. Where the accepted set is contained in the offered set, the accepted set
    /// becomes the offered set and the reply is `Yes`. Otherwise the accepted set becomes its union
    /// with the offer, and the reply is `No` with that union.
    ///
    /// `Clash` comes exactly where an id has two different updates, and names the least such id.
    /// `Memory` comes only where there is no clash. After a refusal the accepted set is unchanged.
    /// An offer of exactly what is accepted is answered `Yes` without memory.
    ///
    /// It is [`Acceptor::admit_offer`], [`Acceptor::prepare_offer`] and [`Acceptor::commit`], at the
    /// cost of the three.
    pub fn offer(&mut self, offered: &UpdateSet) -> Result<Reply, AcceptorError>
        ensures reply { IfOk result (λ reply. reply ≡ answer self.old offered.now) }
        ensures accepted { OnOk result (self.new ≡ join self.old offered.now) }
        ensures compatible { OnOk result (IsCompatible self.old offered.now) }
        ensures error { IfErr result (IsOfferRefusal self.old offered.now) }
        ensures err { OnErr result (self.new ≡ self.old) }
        ensures again { offered.now ≡ self.old → result ≡ Ok Reply.Yes }
    {
        self.offer_beyond(offered, Counts::zero())
    }

    /// Answers an offer as [`Acceptor::offer`] does, with its replies and its refusals, and what
    /// stands after them, where the offer is known to have within these counts what is accepted:
    /// only what both have beyond them is compared. It is [`Acceptor::admit_offer_beyond`],
    /// [`Acceptor::prepare_offer`] and [`Acceptor::commit`], at the cost of the three.
    pub fn offer_beyond(
        &mut self,
        offered: &UpdateSet,
        base: Counts,
    ) -> Result<Reply, AcceptorError>
        requires { within self.old base ≡ within offered.now base }
        ensures reply { IfOk result (λ reply. reply ≡ answer self.old offered.now) }
        ensures accepted { OnOk result (self.new ≡ join self.old offered.now) }
        ensures compatible { OnOk result (IsCompatible self.old offered.now) }
        ensures error { IfErr result (IsOfferRefusal self.old offered.now) }
        ensures err { OnErr result (self.new ≡ self.old) }
        ensures again { offered.now ≡ self.old → result ≡ Ok Reply.Yes }
    {
        self.admit_offer_beyond(offered, base)?;
        let (reply, accepted) = self.prepare_offer(offered)?;
        self.commit(accepted);
        Ok(reply)
    }

    /// Whether an offer would be answered, memory apart: `Clash` comes exactly where an id has two
    /// different updates, and names the least such id. It takes no memory, and `Memory` never
    /// comes. The cost is that of [`UpdateSet::first_clash`].
    pub fn admit_offer(&self, offered: &UpdateSet) -> Result<(), AcceptorError>
        ensures compatible { OnOk result (IsCompatible self.now offered.now) }
        ensures error { IfErr result (IsOfferRefusal self.now offered.now) }
        ensures memory { result ≢ Err AcceptorError.Memory }
    {
        self.admit_offer_beyond(offered, Counts::zero())
    }

    /// Whether an offer would be answered, memory apart, where it is known to have within these
    /// counts what is accepted, as one that was rebuilt over the accepted set has within its
    /// delta's base: only what both have beyond them is compared. `Clash` comes exactly where an id
    /// has two different updates, and names the least such id. It takes no memory, and `Memory`
    /// never comes. The cost is that of [`UpdateSet::first_clash_beyond`].
    pub fn admit_offer_beyond(&self, offered: &UpdateSet, base: Counts) -> Result<(), AcceptorError>
        requires { within self.now base ≡ within offered.now base }
        ensures compatible { OnOk result (IsCompatible self.now offered.now) }
        ensures error { IfErr result (IsOfferRefusal self.now offered.now) }
        ensures memory { result ≢ Err AcceptorError.Memory }
    {
        match self.accepted.first_clash_beyond(offered, base) {
            Some(id) => Err(AcceptorError::Clash(id)),
            None => Ok(()),
        }
    }

    /// Prepares to answer an offer that is admitted: the reply, and the set to accept, or `None` where
    /// what is accepted stays. It compares no updates: the counts tell whether the offer has what was
    /// accepted. It is refused for want of memory alone, and takes none where the offer is exactly
    /// what is accepted.
    ///
    /// The cost is that of copying what was accepted, which shares it, and of
    /// [`UpdateSet::join_compatible`].
    pub fn prepare_offer(
        &self,
        offered: &UpdateSet,
    ) -> Result<(Reply, Option<UpdateSet>), AllocError>
        requires { IsCompatible self.now offered.now }
        ensures reply { IfOk result (λ prepared. prepared.0 ≡ answer self.now offered.now) }
        ensures accepted { IfOk result (λ prepared.
            accepted_next self.now prepared.1 ≡ join self.now offered.now) }
        ensures again { offered.now ≡ self.now → IsOk result }
    {
        if self.accepted.contains_compatible(offered) {
            let reply = reply_from(&self.accepted, offered)?;
            return Ok((reply, None));
        }
        if offered.contains_compatible(&self.accepted) {
            return Ok((Reply::Yes, Some(offered.copy()?)));
        }
        let mut joined = self.accepted.copy()?;
        joined.join_compatible(offered)?;
        let reply = reply_from(&joined, offered)?;
        Ok((reply, Some(joined)))
    }

    /// Accepts what was prepared, at constant cost. It takes no memory. What is dropped in its place
    /// is an offer that was not answered.
    pub fn commit(&mut self, accepted: Option<UpdateSet>)
        ensures { self.new ≡ accepted_next self.old accepted }
    {
        if let Some(accepted) = accepted {
            self.accepted = accepted;
        }
    }
}

// The reply to an offer, from its union with what was accepted: that lay in the offer exactly where
// the union has nothing more than it.
fn reply_from(joined: &UpdateSet, offered: &UpdateSet) -> Result<Reply, AllocError>
    ensures reply { (accepted : Histories)
        → IsCompatible accepted offered.now → joined.now ≡ join accepted offered.now
        → IfOk result (λ reply. reply ≡ answer accepted offered.now) }
    ensures yes { joined.now ≡ offered.now → result ≡ Ok Reply.Yes }
{
    if joined.len() == offered.len() {
        return Ok(Reply::Yes);
    }
    Ok(Reply::No(joined.copy()?))
}
