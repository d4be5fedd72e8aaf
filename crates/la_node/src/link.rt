// What goes between nodes: messages as parcels, over what was sent to their receivers.
ghost use Rattle.std.specs.Prelude.{◌≡◌, IfOk, filter};
ghost use Rattle.la_replica.specs.Parcels.{IsTellWithinLimit};
ghost use Rattle.la_replica.specs.Rebased.{IsOfferOver};
ghost use Rattle.std.specs.List.{list_all};
ghost use Rattle.la_node.specs.Links.{no_link, heard_link, answered_link, asked_link, noted_content, number_with, reaching, reach_of, mends};
ghost use Rattle.la_node.specs.Links.{links_over, no_links, link_of, with_link, known_of, known_with, answered_with};
ghost use Rattle.la_node.specs.Links.{noted_with, noted_all, believed_of, unheard_of, is_held, is_lacked, asked_of};
ghost use Rattle.la_node.specs.Links.{asked_with, is_owed, tells_set, goes_out, is_mending, bases_of, is_counted};
ghost use Rattle.la_node.specs.Links.{is_chosen, letter_of, letters_sent, told_believed, told_on, AreOffersOver, tells_nothing};

use crate::Node;
use crate::track::{Track, covers};
use la_object::Replicated;
use la_replica::{Body, Content, Mail, Message, Parcel, Progress};
use la_set::{Counts, Delta, Update, UpdateId};
use smallvec::SmallVec;
use std::alloc::{AllocError, Global};

/// A parcel on its way, with what its receiver learns by it of its sender.
#[derive(Drop)]
pub struct Letter {
    /// How many replicas the group has.
    pub replicas: u8,
    /// How far the sender was when it sent this.
    pub progress: Progress,
    /// What it sends.
    pub parcel: Parcel,
}

/// How far a replica is, in answer to a letter that told it nothing new, or over more than it has. It is no message of
/// the protocol: nothing but what is known changes by it.
#[derive(Clone, Copy)]
pub struct Standing {
    /// How many replicas the group has.
    pub replicas: u8,
    /// Which of them this is.
    pub from: u8,
    /// To whom it is told.
    pub to: u8,
    /// How far it is.
    pub progress: Progress,
    /// Over what the letter was told that it answers: of an offer what its receiver was to have accepted, of a told set
    /// what was to be in its view, and nothing of the other.
    pub over: Progress,
}

/// Why mail is sent: it says which of it is.
#[derive(Clone, Copy)]
pub enum Sending {
    /// A call made it: all but what [stays](Links::goes_out).
    Call,
    /// The timer has run out: of what waits for an answer, what is [owed](Links::is_owed).
    Timer,
    /// This replica answered that it lacks something: of what waits for an answer, what [mends](Links::is_mending)
    /// that.
    Lack(u8),
}

/// How many updates may have been sent to a replica, offered and told together, that it did not say to have, before
/// nothing more is told to it: usual counters take some 20 to 40 bytes each in a letter, so that these are 1 to 3 MB.
pub const MOST_UNHEARD: u64 = 65_536;

// Whether no update beyond a delta's base has a number over these counts.
fn are_counted(counts: Counts, told: &Delta) -> bool
    ensures { result ≡ list_all (is_counted counts) told.now.more }
{
    let mut all = true;
    for place in 0..told.len() {
        let Some(update) = told.at(place) else {
            unreachable!()
        };
        all = all && update.id.number <= counts.of(update.id.replica);
    }
    all
}

// Whether who is this far has not what a set is told over, or has all of a told set, by counts.
pub(crate) fn tells_nothing(here: Progress, content: &Content) -> bool
    ensures { result ≡ tells_nothing here content.now }
{
    match content {
        Content::Tell(told) => !covers(here.view, told.base()) || are_counted(here.view, told),
        Content::Offer(offered) => !covers(here.accepted, offered.base()),
        Content::Yes | Content::No(_) => false,
    }
}

/// The bases that a letter's content was told over.
pub(crate) fn bases_of(content: &Content) -> Progress
    ensures { result ≡ bases_of content.now }
{
    match content {
        Content::Offer(offered) => Progress {
            accepted: offered.base(),
            view: Counts::zero(),
        },
        Content::Tell(told) => Progress {
            accepted: Counts::zero(),
            view: told.base(),
        },
        Content::Yes | Content::No(_) => Progress::none(),
    }
}

// How many updates of a replica counts have that have this update too.
fn number_with(counts: Counts, id: UpdateId, replica: u8) -> u32
    ensures { result ≡ number_with counts id replica }
{
    let has = counts.of(replica);
    if replica == id.replica {
        has.max(id.number)
    } else {
        has
    }
}

// Counts that have this update too, and all before it.
fn reaching(counts: Counts, update: &Update) -> Counts
    ensures { result ≡ reaching counts update.now }
{
    let id = update.id;
    Counts::from([
        number_with(counts, id, 0),
        number_with(counts, id, 1),
        number_with(counts, id, 2),
        number_with(counts, id, 3),
        number_with(counts, id, 4),
        number_with(counts, id, 5),
        number_with(counts, id, 6),
        number_with(counts, id, 7),
    ])
}

// How far its receiver is once it has a delta.
fn reach_of(delta: &Delta) -> Counts
    ensures { result ≡ reach_of delta.now }
{
    let mut reach = delta.base();
    for place in 0..delta.len() {
        let Some(update) = delta.at(place) else {
            unreachable!()
        };
        reach = reaching(reach, update);
    }
    reach
}

/// What is known of a replica, and how far letters told it: what it has accepted, and what its view has.
#[derive(Clone, Copy)]
pub struct Link {
    accepted: Track,
    view: Track,
}

impl Link {
    // Nothing is known, and nothing was sent.
    fn new() -> Link
        ensures { result ≡ no_link }
    {
        Link {
            accepted: Track::new(),
            view: Track::new(),
        }
    }

    fn heard(self, progress: Progress) -> Link
        ensures { result ≡ heard_link self progress }
    {
        Link {
            accepted: self.accepted.heard(progress.accepted),
            view: self.view.heard(progress.view),
        }
    }

    fn answered(self, progress: Progress, over: Progress) -> Link
        ensures { result ≡ answered_link self progress over }
    {
        Link {
            accepted: self.accepted.answered(progress.accepted, over.accepted),
            view: self.view.answered(progress.view, over.view),
        }
    }

    fn asked(self, here: Progress) -> Link
        ensures { result ≡ asked_link self here }
    {
        Link {
            accepted: self.accepted.asked(here.accepted),
            view: self.view.asked(here.view),
        }
    }

    // A letter of instance 0 went out.
    fn noted(self, content: &Content) -> Link
        ensures { result ≡ noted_content self content.now }
    {
        match content {
            Content::Offer(offered) => Link {
                accepted: self.accepted.noted(offered.base(), reach_of(offered)),
                ..self
            },
            Content::Tell(told) => Link {
                view: self.view.noted(told.base(), reach_of(told)),
                ..self
            },
            Content::Yes | Content::No(_) => self,
        }
    }

    // Whether what it lacks is told anew by this.
    fn mends(&self, body: &Body) -> bool
        ensures { result ≡ mends self.now body.now }
    {
        match body {
            Body::Offer(_) => self.accepted.lacks,
            Body::Tell(_) => self.view.lacks,
            Body::Yes | Body::No(_) => false,
        }
    }
}

/// How far each replica of a group is, and how far letters told it. It lives in memory alone. Whatever is believed
/// changes only what letters cost, and when: where a receiver has less than a letter is told over, it answers how far
/// it is ([`Node::wants_standing`]), and is told what it lacks at once.
///
/// A letter is told over the most that was sent before it and may still come, so that each update is sent to a
/// replica once, however late its answers are. Whoever answers that it lacks what a letter was told over has no more
/// than it says from then on, and what it lacks is told over that ([`Links::is_mending`]). Other letters that were on
/// their way are answered so too: these answers are known by what the letters were told over, so that nothing is told a
/// third time for them.
///
/// What may wait for a replica that does not read is bounded: from [`MOST_UNHEARD`] updates on nothing more goes out to
/// it ([`Links::goes_out`]) until it is heard. Only what a timer sends asks it still how far it is ([`Links::asked`]).
#[derive(Clone, Copy)]
pub struct Links {
    // How far this replica was when it began.
    begun: Progress,
    of: [Link; 8],
}

impl Links {
    /// Nothing is known of any replica, and each is believed to be as far as this one is that begins here. So after a
    /// start letters tell what is new, and to whom lacks more only that.
    pub fn over(here: Progress) -> Links
        ensures { result ≡ links_over here }
    {
        Links {
            begun: here,
            of: [Link::new().asked(here); 8],
        }
    }

    /// The same of a replica that has nothing.
    pub fn new() -> Links
        ensures { result ≡ no_links }
    {
        Links::over(Progress::none())
    }

    // What is known of a replica, and was sent to it: nothing, from replica 8 on.
    fn link(&self, replica: u8) -> Link
        ensures { result ≡ link_of self.now replica }
    {
        match self.of.get(replica as usize) {
            Some(link) => *link,
            None => Link::new(),
        }
    }

    fn set_link(&mut self, replica: u8, link: Link)
        ensures { self.new ≡ with_link self.old replica link }
    {
        let place = replica as usize;
        if place < 8 {
            self.of[place] = link;
        }
    }

    /// How far a replica says that it is, as far as it was heard: nowhere, from replica 8 on.
    pub fn known(&self, replica: u8) -> Progress
        ensures { result ≡ known_of self.now replica }
    {
        let link = self.link(replica);
        Progress {
            accepted: link.accepted.known,
            view: link.view.known,
        }
    }

    /// Takes note of how far a replica is, as a letter of it says, whoever that is for. What it says last stays. That
    /// of a replica from 8 on is passed over.
    pub fn hear(&mut self, replica: u8, progress: Progress)
        ensures { self.new ≡ known_with self.old replica progress }
    {
        let link = self.link(replica).heard(progress);
        self.set_link(replica, link);
    }

    /// Takes note of how far a replica is, as it answers to a letter. Where it lacks what that was told over, it is
    /// [to be told](Links::is_mending), unless what it lacks has been told again since.
    pub fn hear_answer(&mut self, standing: &Standing)
        ensures { self.new ≡ answered_with self.old standing.now }
    {
        let replica = standing.from;
        let link = self
            .link(replica)
            .answered(standing.progress, standing.over);
        self.set_link(replica, link);
    }

    /// Takes note of a letter that goes out. Of other instances than 0 none is taken. The cost is that of a look at each
    /// update that it tells.
    pub fn note(&mut self, letter: &Letter)
        ensures { self.new ≡ noted_with self.old letter.now }
    {
        let parcel = &letter.parcel;
        if parcel.instance == 0 {
            let link = self.link(parcel.to).noted(&parcel.content);
            self.set_link(parcel.to, link);
        }
    }

    /// Takes note of letters that go out, in order.
    pub fn note_all(&mut self, letters: &[Letter])
        ensures { self.new ≡ noted_all self.old letters.now }
    {
        for letter in letters {
            self.note(letter);
        }
    }

    /// How far a replica is believed to be, over which letters to it are told: as far as it says, and as far as letters
    /// told it.
    pub fn believed(&self, replica: u8) -> Progress
        ensures { result ≡ believed_of self.now replica }
    {
        let link = self.link(replica);
        Progress {
            accepted: link.accepted.base(),
            view: link.view.base(),
        }
    }

    /// How many updates were sent to a replica, offered and told together, that it did not say to have.
    pub fn unheard(&self, replica: u8) -> u64
        ensures { result ≡ unheard_of self.now replica }
    {
        let link = self.link(replica);
        link.accepted.unheard(self.begun.accepted) + link.view.unheard(self.begun.view)
    }

    /// Whether these are over [`MOST_UNHEARD`], so that nothing more is told to it until it is heard.
    pub fn is_held(&self, replica: u8) -> bool
        ensures { result ≡ is_held self.now replica }
    {
        self.unheard(replica) > MOST_UNHEARD
    }

    /// Whether a message of this node goes out: all do but offers and told sets of instance 0 to a replica that
    /// nothing more is told to.
    pub fn goes_out(&self, message: &Message) -> bool
        ensures { result ≡ goes_out self.now message.now }
    {
        let tells = match &message.body {
            Body::Offer(_) | Body::Tell(_) => true,
            Body::Yes | Body::No(_) => false,
        };
        !(message.instance == 0 && tells && self.is_held(message.to))
    }

    /// Whether a replica said the last time that it was heard that it lacks what a letter was told over.
    pub fn is_lacked(&self, replica: u8) -> bool
        ensures { result ≡ is_lacked self.now replica }
    {
        let link = self.link(replica);
        link.accepted.lacks || link.view.lacks
    }

    /// Whether a message tells this replica anew what it said that it lacks.
    pub fn is_mending(&self, replica: u8, message: &Message) -> bool
        ensures { result ≡ is_mending self.now replica message.now }
    {
        message.instance == 0 && message.to == replica && self.link(replica).mends(&message.body)
    }

    // A replica that nothing more is told to is believed to be so far.
    fn asked_of(&self, here: Progress, replica: u8) -> Link
        ensures { result ≡ asked_of here self.now replica }
    {
        let link = self.link(replica);
        if self.is_held(replica) {
            link.asked(here)
        } else {
            link
        }
    }

    /// The same, where each replica that nothing more is told to is believed to be as far as this: so what a timer
    /// sends to it says little, and its answer tells what it lacks.
    pub fn asked(&self, here: Progress) -> Links
        ensures { result ≡ asked_with self.now here }
    {
        let of = |replica| self.asked_of(here, replica);
        Links {
            begun: self.begun,
            of: [of(0), of(1), of(2), of(3), of(4), of(5), of(6), of(7)],
        }
    }

    /// Whether a message is worth sending again: a told set is not, where its receiver's view is known to have as
    /// many updates of each replica.
    pub fn is_owed(&self, message: &Message) -> bool
        ensures { result ≡ is_owed self.now message.now }
    {
        match &message.body {
            Body::Tell(told) => !covers(self.known(message.to).view, told.counts()),
            Body::Offer(_) | Body::Yes | Body::No(_) => true,
        }
    }

    /// Whether a message is among those that are sent.
    pub fn is_chosen(&self, sending: Sending, message: &Message) -> bool
        ensures { result ≡ is_chosen self.now sending message.now }
    {
        match sending {
            Sending::Call => self.goes_out(message),
            Sending::Timer => self.is_owed(message),
            Sending::Lack(replica) => self.is_mending(replica, message),
        }
    }

    /// A message of a node as a letter, over what its receiver is [believed](Links::believed) to have: an offer
    /// in instance 0 over what that has accepted ([`Message::further`]), a told set over what its view has
    /// ([`Parcel::new`]). Whoever sends it [takes note](Links::note) of it.
    ///
    /// It is refused for want of memory alone, and then the message is dropped. The cost is constant: sets
    /// are shared.
    pub fn letter<B: Replicated>(
        &self,
        node: &Node<B>,
        message: Message,
    ) -> Result<Letter, AllocError>
        ensures ok { IfOk result (λ letter. letter ≡ letter_of self.now node.now.replica message) }
        ensures over { IfOk result (λ _. IsOfferOver (told_on self.now message).body) }
        ensures limit { IfOk result (λ _. IsTellWithinLimit message.body) }
    {
        Ok(Letter {
            replicas: node.replicas(),
            progress: node.progress(),
            parcel: self.parcel(message)?,
        })
    }

    // A message as a parcel, over what its receiver is believed to have.
    fn parcel(&self, message: Message) -> Result<Parcel, AllocError>
        ensures ok { IfOk result (λ parcel. parcel ≡ told_believed (believed_of self.now message.to) message) }
        ensures over { IfOk result (λ _. IsOfferOver (told_on self.now message).body) }
        ensures limit { IfOk result (λ _. IsTellWithinLimit message.body) }
    {
        let believed = self.believed(message.to);
        Parcel::new(message.further(believed.accepted), believed.view)
    }

    /// What of a node's mail is sent, as letters, in order, as [`Links::letter`] makes them. No message is copied. After
    /// a refusal the mail is dropped. Whoever sends them [takes note](Links::note_all) of them.
    pub fn letters<B: Replicated>(
        &self,
        alloc: Global,
        node: &Node<B>,
        mail: Mail,
        sending: Sending,
    ) -> Result<Vec<Letter>, AllocError>
        ensures ok { IfOk result (λ letters. letters.items ≡ letters_sent self.now node.now.replica sending mail) }
        ensures over { IfOk result (λ _. AreOffersOver self.now (filter (is_chosen self.now sending) mail)) }
    {
        let (replicas, progress) = (node.replicas(), node.progress());
        let mut letters = Vec::with_capacity(alloc, mail.len())?;
        for message in SmallVec::from(mail) {
            if self.is_chosen(sending, &message) {
                letters.push_reserved(Letter {
                    replicas,
                    progress,
                    parcel: self.parcel(message)?,
                });
            }
        }
        Ok(letters)
    }
}
