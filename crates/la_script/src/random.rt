ghost use Rattle.std.specs.Prelude.{◌≡◌, ◌<◌, ◌≤◌, ◌%◌, IfOk};
ghost use Rattle.la_script.specs.RandomEvents.{event_by, random_events};

use crate::Events;
use crate::events::{ask, decide, submit};
use la_object::Query;
use la_set::Op;
use la_world::Event;
use rand_core::utils::NextWord;
use rand_pcg::Lcg64Xsh32;
use std::alloc::{AllocError, Global};

// The replica that a word means.
fn replica_by(word: u32, replicas: u8) -> u8
    requires { 1 ≤ replicas }
    ensures { result ≡ word % replicas }
{
    (word % u32::from(replicas)) as u8
}

// The event with this number, from 0, by the two words that are drawn for it.
fn event_by(replicas: u8, number: u32, first: u32, second: u32) -> Event
    requires { 1 ≤ replicas }
    ensures { result ≡ event_by replicas number first second }
{
    let replica = replica_by(second, replicas);
    let rest = first / 8;
    match first % 8 {
        0 => submit(replica, 1, Op::Inc(1 + rest % 100)),
        1 => submit(replica, 3, Op::Put(u64::from(rest % 10))),
        2 => decide(replica, 0, u64::from(rest % 3)),
        3 => ask(replica, 1, Query::Total),
        _ => Event::Deliver(u64::from(second) % (2 * u64::from(number) + 1)),
    }
}

/// This many events, drawn from a seed, for a group of so many replicas: submissions to objects 1 and
/// 3, proposals to adopt-commit object 0, questions to object 1, and deliveries, about half of all. The
/// same seed gives the same events, and more of them where more are asked for.
///
/// There is to be a replica at least. The refusal is for want of memory, and nothing stands after
/// it. The time is linear in the events.
pub fn random_events(
    alloc: Global,
    seed: u64,
    replicas: u8,
    count: u32,
) -> Result<Events, AllocError>
    requires { 1 ≤ replicas }
    ensures { IfOk result (λ events. events ≡ random_events seed replicas count) }
{
    let mut generator = Lcg64Xsh32::new(seed, 1);
    let mut events = Events::new(alloc);
    for number in 0..count {
        let first = generator.next_word();
        let second = generator.next_word();
        events.push(event_by(replicas, number, first, second))?;
    }
    Ok(events)
}
