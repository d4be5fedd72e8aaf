// How a node stands, as a note.
ghost use Rattle.std.specs.Prelude.{◌≡◌, ◌++◌, ◌∷◌, [], codes, OnOk};
ghost use Rattle.la_wire.specs.Joined.{spaced};
ghost use Rattle.la_wire.specs.Questions.{status_word};
ghost use Rattle.la_wire.specs.Notes.{begun_note};
ghost use Rattle.la_wire.specs.Status.{no_kinds, no_tally, counted_words, kinds_words, traffic_words, counts_words};
ghost use Rattle.la_wire.specs.Status.{peer_words, peers_from, open_word, own_words, status_note};

use crate::notes::{put_end, put_front, put_name};
use crate::writing::{put_number, put_progress, put_word};
use la_node::Links;
use la_replica::Progress;
use std::alloc::AllocError;

/// How many messages of each kind.
#[derive(Clone, Copy)]
pub struct Kinds {
    /// Offers of sets.
    pub offers: u64,
    /// Replies that say yes.
    pub yes: u64,
    /// Replies that say no.
    pub no: u64,
    /// Told sets.
    pub tells: u64,
    /// Standings: how far a replica is, and nothing else.
    pub known: u64,
}

impl Kinds {
    /// None of any kind.
    pub fn none() -> Kinds
        ensures { result ≡ no_kinds }
    {
        Kinds {
            offers: 0,
            yes: 0,
            no: 0,
            tells: 0,
            known: 0,
        }
    }
}

/// What a process counted since it started.
#[derive(Clone, Copy)]
pub struct Tally {
    /// The messages that came, also those for other replicas.
    pub received: Kinds,
    /// The messages that were sent, also to the node itself.
    pub sent: Kinds,
    /// How many lines were refused.
    pub refused: u64,
    /// How many bytes were put into the journal.
    pub written: u64,
    /// How often the journal was synced.
    pub syncs: u64,
}

impl Tally {
    /// Nothing was counted.
    pub fn none() -> Tally
        ensures { result ≡ no_tally }
    {
        Tally {
            received: Kinds::none(),
            sent: Kinds::none(),
            refused: 0,
            written: 0,
            syncs: 0,
        }
    }
}

/// How a node stands.
#[derive(Clone, Copy)]
pub struct NodeStatus {
    /// Which replica it is, from 0.
    pub own: u8,
    /// How many replicas the group has.
    pub replicas: u8,
    /// How far it is in instance 0.
    pub progress: Progress,
    /// How many updates it submitted.
    pub submitted: u32,
    /// How many of these wait for a ballot.
    pub waiting: u32,
    /// The number of its open ballot in instance 0; 0, where none is.
    pub ballot: u32,
    /// Whether one is open.
    pub asking: bool,
    /// How far the others are, as far as it knows.
    pub known: Links,
    /// What its process counted.
    pub tally: Tally,
}

// Writes a word and a number behind other words.
fn put_counted(out: &mut Vec<u8>, label: &[u8], number: u64) -> Result<(), AllocError>
    ensures { OnOk result (out.new.items ≡ out.old.items ++ spaced 32 (counted_words label.now number)) }
{
    put_word(out, label)?;
    put_number(out, number)
}

#[tactic(auto, unfolding(crate::specs::Status::kinds_words))]
fn put_kinds(out: &mut Vec<u8>, kinds: &Kinds) -> Result<(), AllocError>
    ensures { OnOk result (out.new.items ≡ out.old.items ++ spaced 32 (kinds_words kinds.now)) }
{
    put_counted(out, b"offer", kinds.offers)?;
    put_counted(out, b"yes", kinds.yes)?;
    put_counted(out, b"no", kinds.no)?;
    put_counted(out, b"tell", kinds.tells)?;
    put_counted(out, b"known", kinds.known)
}

// Writes how many messages came, or went, behind a word that says which.
fn put_traffic(out: &mut Vec<u8>, label: &[u8], kinds: &Kinds) -> Result<(), AllocError>
    ensures { OnOk result (out.new.items ≡ out.old.items ++ spaced 32 (traffic_words label.now kinds.now)) }
{
    put_word(out, label)?;
    put_kinds(out, kinds)
}

fn put_tally(out: &mut Vec<u8>, tally: &Tally) -> Result<(), AllocError>
    ensures { OnOk result (out.new.items ≡ out.old.items ++ spaced 32 (counts_words tally.now)) }
{
    put_traffic(out, b"in", &tally.received)?;
    put_traffic(out, b"out", &tally.sent)?;
    put_counted(out, b"refused", tally.refused)?;
    put_counted(out, b"written", tally.written)?;
    put_counted(out, b"syncs", tally.syncs)
}

// Writes how far another replica is, as far as is known, and how much was sent to it that it did not say to have:
// nothing of the node itself.
fn put_peer(out: &mut Vec<u8>, known: &Links, own: u8, peer: u8) -> Result<(), AllocError>
    ensures { OnOk result (out.new.items ≡ out.old.items ++ spaced 32 (peer_words known.now own peer)) }
{
    if peer == own {
        return Ok(());
    }
    put_counted(out, b"peer", u64::from(peer))?;
    put_progress(out, known.known(peer))?;
    put_counted(out, b"unheard", known.unheard(peer))
}

fn put_peers(out: &mut Vec<u8>, known: &Links, own: u8, replicas: u8) -> Result<(), AllocError>
    ensures { OnOk result (out.new.items ≡ out.old.items ++ spaced 32 (peers_from known.now own 0 replicas)) }
{
    for peer in 0..replicas {
        put_peer(out, known, own, peer)?;
    }
    Ok(())
}

fn put_open(out: &mut Vec<u8>, is_open: bool) -> Result<(), AllocError>
    ensures { OnOk result (out.new.items ≡ out.old.items ++ spaced 32 (open_word is_open ∷ [])) }
{
    if is_open {
        put_word(out, b"open")
    } else {
        put_word(out, b"shut")
    }
}

// Writes what the node itself has.
fn put_own(out: &mut Vec<u8>, status: &NodeStatus) -> Result<(), AllocError>
    ensures { OnOk result (out.new.items ≡ out.old.items ++ spaced 32 (own_words status.now)) }
{
    put_progress(out, status.progress)?;
    put_counted(out, b"submitted", u64::from(status.submitted))?;
    put_counted(out, b"waiting", u64::from(status.waiting))?;
    put_counted(out, b"ballot", u64::from(status.ballot))?;
    put_open(out, status.asking)
}

// Begins the note.
fn put_head(out: &mut Vec<u8>, own: u8, version: &str) -> Result<(), AllocError>
    ensures { OnOk result (out.new.items
        ≡ out.old.items ++ begun_note own (status_word ∷ codes "version" ∷ version.now ∷ [])) }
{
    put_front(out, own, b"status")?;
    put_word(out, b"version")?;
    put_word(out, version.as_bytes())
}

/// Notes how a node of this version stands, in answer to a request of this name. After a refusal a part of the note may
/// stand there.
pub fn put_status(
    out: &mut Vec<u8>,
    status: &NodeStatus,
    version: &str,
    name: &str,
) -> Result<(), AllocError>
    ensures { OnOk result (out.new.items ≡ out.old.items ++ status_note status.now version.now name.now) }
{
    put_head(out, status.own, version)?;
    put_own(out, status)?;
    put_peers(out, &status.known, status.own, status.replicas)?;
    put_tally(out, &status.tally)?;
    put_name(out, name)?;
    put_end(out)
}
