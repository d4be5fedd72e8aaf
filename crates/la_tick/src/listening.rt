// The reads of the reader that ticks.
ghost use Rattle.std.specs.Prelude.{◌≡◌, ◌<◌, ◌++◌, ◌∷◌, List, ℕ, true, [], None, IsSome, length};
ghost use Rattle.std.specs.Io.{ReadsAtMost};
ghost use Rattle.std.specs.declared.io.ErrorKind.TheVariants.{BrokenPipe};
ghost use Rattle.la_tick.specs.declared.feed.Ending.TheVariants.{Failed};
ghost use Rattle.la_tick.specs.declared.reading.Note.TheVariants.{Last};
ghost use Rattle.la_tick.specs.Ticks.{Anew, Hearing, Stands, HandsOn, EndsAs, in_hand, handed_by};

use crate::Ticked;
use crate::chunk::Chunk;
use crate::feed::Ending;
use crate::reading::Note;
use crossbeam_channel::RecvTimeoutError;
use la_io::Paced;
use std::io::{self, ErrorKind, Read};
use std::sync::Wait;
use std::time::{Clock, Duration, Instant};

// What is heard where the thread is gone: that a read failed, and not the input's end, which it tells before it goes.
fn gone() -> Note
    ensures { result ≡ Last (Failed BrokenPipe) }
{
    Note::Last(Ending::Failed(ErrorKind::BrokenPipe))
}

impl<R: Wait + Clock + Drop> Ticked<R> {
    // How long more the interval lasts, which is of so many milliseconds: from its begin on, where that is known, and
    // else from now on.
    fn rest_of(&self, millis: u64) -> Duration {
        let spent = self.since.and_then(|then| then.elapsed(&self.rt).ok());
        Duration::from_millis(millis).saturating_sub(spent.unwrap_or(Duration::ZERO))
    }

    // The interval begins now, where this says so.
    fn begin_if(&mut self, begins: bool)
        ensures { self.new ≡ self.old }
    {
        if begins {
            self.since = Instant::now(&self.rt).ok();
        }
    }

    // Waits for what the thread tells. Answers nothing where an interval has passed.
    fn listen(&self) -> Option<Note>
        ensures { result ≡ None → self.now.whole ≡ true }
    {
        let Some(millis) = self.feed.patience() else {
            return match self.notes.recv(&self.rt) {
                Ok(note) => Some(note),
                Err(_) => Some(gone()),
            };
        };
        let limit = self.rest_of(millis);
        if limit.is_zero() {
            return None;
        }
        match self.notes.recv_timeout(&self.rt, limit) {
            Ok(note) => Some(note),
            Err(RecvTimeoutError::Timeout) => None,
            Err(RecvTimeoutError::Disconnected) => Some(gone()),
        }
    }

    // Gives a chunk back to the thread, which reads into it, unless it is gone.
    fn give_back(&self, chunk: Chunk) {
        let _ = self.spare.send(&self.rt, chunk);
    }

    // Hears one thing more, once all that came is handed on.
    fn hear(&mut self)
        requires done { in_hand self.old ≡ [] }
        requires open { self.old.ending ≡ None }
        ensures hands { (heard : Hearing) (handed : List ℕ) → Stands self.old heard handed
            → HandsOn self.new heard handed [] }
        ensures some { self.new.ending ≡ None → 0 < length (in_hand self.new) }
        ensures first { self.new.pace.first ≡ self.old.pace.first }
    {
        match self.listen() {
            Some(Note::Bytes(filled)) => {
                let spent = self.feed.hear_bytes(filled);
                self.give_back(spent);
            }
            Some(Note::Last(ending)) => self.feed.ending = Some(ending),
            None => {
                self.feed.hear_nothing();
                self.begin_if(true);
            }
        }
    }

    // Hears one thing more where all that came is handed on and more may come.
    fn hear_if_done(&mut self)
        ensures hands { (heard : Hearing) (handed : List ℕ) → Stands self.old heard handed
            → HandsOn self.new heard handed [] }
        ensures some { self.new.ending ≡ None → 0 < length (in_hand self.new) }
        ensures stays { IsSome self.old.ending → self.new ≡ self.old }
        ensures first { self.new.pace.first ≡ self.old.pace.first }
    {
        if self.feed.ending.is_none() && self.feed.is_done() {
            self.hear();
        }
    }
}

impl<R: Wait + Clock + Drop> Read for Ticked<R> {
    /// Hands on the bytes that come next: of the input, or of a tick.
    ///
    /// It waits where all that came is handed on: within a line without a limit, and between lines for what is left of
    /// the interval. Where that has passed it hands on a tick, and doubles the interval, up to a minute. At the input's
    /// end it answers 0, and once a read of the input failed that error, for good.
    fn read(&mut self, buf: &mut [u8]) -> io::Result<usize>
        ensures bound { ReadsAtMost result buf.new }
        ensures hands { (heard : Hearing) (handed : List ℕ) → Stands self.old heard handed
            → HandsOn self.new heard handed (handed_by result buf.new) }
        ensures ends { 0 < length buf.old → EndsAs self.new.ending result }
        ensures stays { IsSome self.old.ending → self.new ≡ self.old }
        ensures first { self.new.pace.first ≡ self.old.pace.first }
    {
        if buf.is_empty() {
            return Ok(0);
        }
        self.hear_if_done();
        match self.feed.ending {
            None => Ok(self.feed.hand(buf)),
            Some(Ending::Over) => Ok(0),
            Some(Ending::Failed(kind)) => Err(io::Error::from(kind)),
        }
    }
}

impl<R: Wait + Clock + Drop> Paced for Ticked<R> {
    /// The interval is the first again, and where it had doubled it begins now. What is in hand stays so.
    fn begin_anew(&mut self)
        ensures anew { (heard : Hearing) (handed : List ℕ) → Stands self.old heard handed
            → Stands self.new (Anew ∷ heard) handed }
        ensures hand { in_hand self.new ≡ in_hand self.old }
        ensures ending { self.new.ending ≡ self.old.ending }
        ensures first { self.new.pace.first ≡ self.old.pace.first }
    {
        let slow = self.feed.pace.is_slow();
        self.feed.begin_anew();
        self.begin_if(slow);
    }
}
