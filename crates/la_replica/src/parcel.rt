ghost use Rattle.std.specs.Prelude.{◌≡◌, IsOk, IfOk, IfErr};
ghost use Rattle.la_set.specs.AgreeWithin.{AgreeWithin};
ghost use Rattle.la_replica.specs.Parcels.{wrapped, wrapped_body, IsTellWithinLimit, TellsNothing};
ghost use Rattle.la_replica.specs.Parcels.{unwrapped, unwrapped_body, Unwraps, IsShut, base_of_told};

use crate::{Body, Message};
use la_set::{Counts, Delta, SetError, UpdateSet};
use std::alloc::AllocError;

/// What a parcel says: as a [`Body`], but of a told set only what its receiver's view is not believed
/// to have.
#[derive(Drop)]
pub enum Content {
    /// An offer, over its own base, as in [`Body::Offer`].
    Offer(Delta),
    /// An acknowledgement, as in [`Body::Yes`].
    Yes,
    /// A refusal, over its own base, as in [`Body::No`].
    No(Delta),
    /// A learnt set, over what its receiver's view is believed to have. The belief may be wrong: where
    /// the view has less, the parcel is refused.
    Tell(Delta),
}

/// A message as a link hands it on, so that a told set costs what is new in it. A link may know of each
/// peer what its view had some time ago: views only grow, so it has that for as long as it keeps its
/// state.
#[derive(Drop)]
pub struct Parcel {
    /// The instance that it belongs to, from 0.
    pub instance: u8,
    /// The replica that sends it.
    pub from: u8,
    /// The replica that it goes to.
    pub to: u8,
    /// The number of the ballot that is offered, that a reply answers, or that was learnt.
    pub ballot: u32,
    /// What the parcel says.
    pub content: Content,
}

impl Content {
    // What a message says, a told set over as much of these counts as it has.
    fn of(body: Body, believed: Counts) -> Result<Content, AllocError>
        ensures ok { IfOk result (λ content. content ≡ wrapped_body believed body) }
        ensures limit { IfOk result (λ _. IsTellWithinLimit body) }
        ensures free { TellsNothing (wrapped_body believed body) → IsOk result }
    {
        match body {
            Body::Offer(delta) => Ok(Content::Offer(delta)),
            Body::Yes => Ok(Content::Yes),
            Body::No(delta) => Ok(Content::No(delta)),
            Body::Tell(told) => Ok(Content::Tell(told.over(believed.min(told.counts()))?)),
        }
    }

    // A copy.
    fn copy(&self) -> Result<Content, AllocError>
        ensures { IfOk result (λ content. content ≡ self.now) }
    {
        Ok(match self {
            Content::Offer(delta) => Content::Offer(delta.copy()?),
            Content::Yes => Content::Yes,
            Content::No(delta) => Content::No(delta.copy()?),
            Content::Tell(delta) => Content::Tell(delta.copy()?),
        })
    }

    // What it says as a message does, a told set rebuilt over this one, beside another that is known to
    // have the same within these counts.
    fn over_beside(
        self,
        set: &UpdateSet,
        other: &UpdateSet,
        known: Counts,
    ) -> Result<Body, SetError>
        requires { AgreeWithin known set.now other.now }
        ensures ok { IfOk result (λ body. body ≡ unwrapped_body set.now self) }
        ensures stands { IfOk result (λ _. Unwraps set.now self) }
        ensures error { IfErr result (IsShut set.now self) }
    {
        match self {
            Content::Offer(delta) => Ok(Body::Offer(delta)),
            Content::Yes => Ok(Body::Yes),
            Content::No(delta) => Ok(Body::No(delta)),
            Content::Tell(delta) => Ok(Body::Tell(set.with_beside(&delta, other, known)?)),
        }
    }
}

impl Parcel {
    /// A message as a parcel, where its receiver's view is believed to have these counts: a told set
    /// goes over the smaller, of each replica, of these and of what it has itself; what else it says
    /// goes as it is.
    ///
    /// It is refused for want of memory alone, and then the message is dropped; what tells nothing takes
    /// none. The cost is constant: a told set is shared.
    pub fn new(message: Message, believed: Counts) -> Result<Parcel, AllocError>
        ensures ok { IfOk result (λ parcel. parcel ≡ wrapped believed message) }
        ensures limit { IfOk result (λ _. IsTellWithinLimit message.body) }
        ensures free { TellsNothing (wrapped_body believed message.body) → IsOk result }
    {
        let Message {
            instance,
            from,
            to,
            ballot,
            body,
        } = message;
        let content = Content::of(body, believed)?;
        Ok(Parcel {
            instance,
            from,
            to,
            ballot,
            content,
        })
    }

    /// A copy, at the cost of [`Delta::copy`].
    pub fn copy(&self) -> Result<Parcel, AllocError>
        ensures { IfOk result (λ parcel. parcel ≡ self.now) }
    {
        Ok(Parcel {
            instance: self.instance,
            from: self.from,
            to: self.to,
            ballot: self.ballot,
            content: self.content.copy()?,
        })
    }

    /// The counts over which the parcel tells a learnt set; no counts at all where it tells none.
    pub fn base_of_told(&self) -> Counts
        ensures { result ≡ base_of_told self.now.content }
    {
        match &self.content {
            Content::Tell(delta) => delta.base(),
            Content::Offer(_) | Content::Yes | Content::No(_) => Counts::zero(),
        }
    }

    /// The parcel as a message, where its receiver has this set: a told set is rebuilt over it, by
    /// [`UpdateSet::with`]; what else it says is handed on. In this order, of a told set alone: `NoBase`
    /// where less is there than its base; `Gap` where an update does not come next; `Memory`. After each
    /// the parcel is dropped. The cost is that of what a told set has beyond its base.
    pub fn over(self, set: &UpdateSet) -> Result<Message, SetError>
        ensures ok { IfOk result (λ message. message ≡ unwrapped set.now self) }
        ensures stands { IfOk result (λ _. Unwraps set.now self.content) }
        ensures error { IfErr result (IsShut set.now self.content) }
    {
        self.over_beside(set, set, Counts::zero())
    }

    // The same beside another set, which is known to have the same within these counts: a told set
    // shares its updates.
    pub(crate) fn over_beside(
        self,
        set: &UpdateSet,
        other: &UpdateSet,
        known: Counts,
    ) -> Result<Message, SetError>
        requires { AgreeWithin known set.now other.now }
        ensures ok { IfOk result (λ message. message ≡ unwrapped set.now self) }
        ensures stands { IfOk result (λ _. Unwraps set.now self.content) }
        ensures error { IfErr result (IsShut set.now self.content) }
    {
        let Parcel {
            instance,
            from,
            to,
            ballot,
            content,
        } = self;
        let body = content.over_beside(set, other, known)?;
        Ok(Message {
            instance,
            from,
            to,
            ballot,
            body,
        })
    }
}
