// What is known of one replica, of its accepted set or of its view: how far it said that it is, and how far letters
// told it.
ghost use Rattle.std.specs.Prelude.{◌≡◌, ◌≤◌, ◌^◌};
ghost use Rattle.la_node.specs.Links.{covers, no_track, track_base, heard_on, answered_on, noted_on, asked_on, is_lacking};
ghost use Rattle.la_node.specs.Links.{mended_by, unheard_on};

use la_set::Counts;

/// Whether counts have of each replica as many updates as others, or more.
pub(crate) fn covers(counts: Counts, others: Counts) -> bool
    ensures { result ≡ covers counts others }
{
    let has = |replica| others.of(replica) <= counts.of(replica);
    has(0) && has(1) && has(2) && has(3) && has(4) && has(5) && has(6) && has(7)
}

/// One of the two things that a letter is told over.
#[derive(Clone, Copy)]
pub(crate) struct Track {
    // How far the replica said that it is, the last time.
    pub(crate) known: Counts,
    // How far letters told it that may still come.
    pub(crate) sent: Counts,
    // Over what the last letter was told.
    pub(crate) last: Counts,
    // Over what the last letter was told that went out before what was lacking was told again: whoever lacks no more
    // than this may answer such a letter.
    pub(crate) mended: Counts,
    // Whether it said the last time that it lacks what a letter was told over.
    pub(crate) lacks: bool,
}

impl Track {
    // Nothing is known, and nothing was sent.
    pub(crate) fn new() -> Track
        ensures { result ≡ no_track }
    {
        Track {
            known: Counts::zero(),
            sent: Counts::zero(),
            last: Counts::zero(),
            mended: Counts::zero(),
            lacks: false,
        }
    }

    // Over what the next letter is told.
    pub(crate) fn base(&self) -> Counts
        ensures { result ≡ track_base self.now }
    {
        self.known.max(self.sent)
    }

    // The replica said that it is so far.
    pub(crate) fn heard(self, has: Counts) -> Track
        ensures { result ≡ heard_on self has }
    {
        Track {
            known: has,
            lacks: false,
            ..self
        }
    }

    // Whether a replica that is so far lacks what a letter was told over, and not only one from before it was told
    // again.
    fn is_lacking(&self, has: Counts, over: Counts) -> bool
        ensures { result ≡ is_lacking self.now has over }
    {
        !covers(has, over) && !covers(self.mended, over)
    }

    // The replica said that it is so far in answer to a letter that was told over this. Where it lacks that, it has no
    // more than it says, whatever was sent.
    pub(crate) fn answered(self, has: Counts, over: Counts) -> Track
        ensures { result ≡ answered_on self has over }
    {
        if !self.is_lacking(has, over) {
            return self.heard(has);
        }
        Track {
            known: has,
            sent: has,
            last: self.last,
            mended: self.last,
            lacks: true,
        }
    }

    // What was told again, once a letter over this goes out: where that one could not be told from those before, none
    // of them counts as late any more.
    fn mended_by(&self, base: Counts) -> Counts
        ensures { result ≡ mended_by self.now base }
    {
        if covers(self.mended, base) && !covers(self.known, base) {
            Counts::zero()
        } else {
            self.mended
        }
    }

    // A letter went out that is told over this base, and tells as far as this.
    pub(crate) fn noted(self, base: Counts, reach: Counts) -> Track
        ensures { result ≡ noted_on self base reach }
    {
        Track {
            sent: self.sent.max(reach),
            last: base,
            mended: self.mended_by(base),
            ..self
        }
    }

    // It is believed to be as far as this.
    pub(crate) fn asked(self, here: Counts) -> Track
        ensures { result ≡ asked_on self here }
    {
        Track {
            sent: self.sent.max(here),
            ..self
        }
    }

    // How many updates were sent, beyond these, that it did not say to have.
    pub(crate) fn unheard(&self, begun: Counts) -> u64
        ensures number { result ≡ unheard_on self.now begun }
        ensures most { result ≤ 2 ^ 35 }
    {
        let heard = self.known.max(begun);
        let of = |replica| u64::from(self.sent.of(replica).saturating_sub(heard.of(replica)));
        of(0) + of(1) + of(2) + of(3) + of(4) + of(5) + of(6) + of(7)
    }
}
