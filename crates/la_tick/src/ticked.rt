// The reader, and the thread that reads for it.
ghost use Rattle.std.specs.Prelude.{◌≡◌, [], max, None, IfOk};
ghost use Rattle.la_tick.specs.declared.feed.Feed.{Feed};
ghost use Rattle.la_tick.specs.Ticks.{Stands};
ghost use Rattle.la_tick.specs.declared.ticked.TickFault.TheVariants.{Memory};

use crate::chunk::Chunk;
use crate::feed::Feed;
use crate::reading::{Note, read_all};
use crossbeam_channel::{Receiver, Sender, bounded};
use std::alloc::{AllocError, Global};
use std::io::Read;
use std::marker::Model;
use std::sync::Wait;
use std::thread;
use std::thread::Threads;
use std::time::{Clock, Instant};
use thiserror::Error;

// So many chunks go between the thread and the reader, which has one more.
const SPARE: usize = 2;

/// Why no ticks can come.
#[derive(Clone, Copy, Debug, Error)]
pub enum TickFault {
    /// No thread could be started.
    #[error("NoThread")]
    NoThread,

    /// A growth was refused.
    #[error("Memory")]
    Memory,
}

impl From<AllocError> for TickFault {
    ghost from_gives = { λ _ fault. fault ≡ Memory };

    fn from(_refused: AllocError) -> TickFault {
        TickFault::Memory
    }
}

/// A reader of another one's bytes, which puts a line `tick` between two lines where an interval has passed.
#[derive(Drop)]
pub struct Ticked<R: Wait + Clock> {
    pub(crate) rt: R,
    pub(crate) feed: Feed,
    pub(crate) notes: Receiver<Note>,
    pub(crate) spare: Sender<Chunk>,
    // When the interval began, if the clock could be read.
    pub(crate) since: Option<Instant>,
}

impl<R: Wait + Clock> Model for Ticked<R> {
    ghost Value = { Feed };

    ghost view = { λ t. t.feed };
}

// Chunks that nothing is in, and the ends of their channel.
fn chunks<R: Wait>(rt: &R, alloc: Global) -> Result<(Sender<Chunk>, Receiver<Chunk>), AllocError> {
    let (to, from) = bounded(alloc, SPARE)?;
    for _ in 0..SPARE {
        let chunk = Chunk::new(alloc)?;
        let _ = to.send(rt, chunk);
    }
    Ok((to, from))
}

impl<R: Threads + Wait + Clock + Copy + Send + 'static> Ticked<R> {
    /// A reader of the input's bytes, whose first interval is of so many milliseconds, at least of one. It begins now,
    /// and each next one with a tick. It doubles with each tick, up to a minute, until
    /// [`begin_anew`](la_io::Paced::begin_anew) makes it the first again. No input puts a tick off, so that who is
    /// always busy ticks too.
    ///
    /// A thread of its own reads the input, at most 16,384 bytes ahead, until the input ends or a read fails. It is
    /// never joined: where it waits in a read it ends with the process. Memory is taken here alone.
    pub fn new<I: Read + Send + Drop + 'static>(
        rt: R,
        alloc: Global,
        input: I,
        first: u64,
    ) -> Result<Ticked<R>, TickFault>
        ensures begins { IfOk result (λ t. Stands t [] []) }
        ensures first { IfOk result (λ t. t.pace.first ≡ max first 1) }
        ensures open { IfOk result (λ t. t.ending ≡ None) }
    {
        let feed = Feed::new(Chunk::new(alloc)?, first);
        Ticked::over(rt, alloc, input, feed)
    }

    // A reader of the input's bytes, where this is heard.
    fn over<I: Read + Send + Drop + 'static>(
        rt: R,
        alloc: Global,
        input: I,
        feed: Feed,
    ) -> Result<Ticked<R>, TickFault>
        ensures { IfOk result (λ t. t ≡ feed) }
    {
        let (to, notes) = bounded(alloc, SPARE)?;
        let (spare, from) = chunks(&rt, alloc)?;
        let since = Instant::now(&rt).ok();
        match thread::spawn(&rt, move || read_all(&rt, input, to, from)) {
            Ok(_) => Ok(Ticked {
                rt,
                feed,
                notes,
                spare,
                since,
            }),
            Err(_) => Err(TickFault::NoThread),
        }
    }
}
