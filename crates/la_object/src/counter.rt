ghost use Rattle.std.specs.Prelude.{◌≡◌, ◌<◌, ◌+◌, ◌^◌, [], Ok, IsOk, OnOk};
ghost use Rattle.la_object.specs.declared.kind.Kind.TheVariants.{Counter as CounterKind};
ghost use Rattle.la_object.specs.declared.state.State.TheVariants.{Counter as CounterIs};
ghost use Rattle.la_object.specs.Counter.{reaches};
ghost use Rattle.la_object.specs.Objects.{start, after, reply, HasRoom};

use crate::{Answer, Kind, ObserveError, Query, Replicated, State};
use la_set::{Op, Tags, Update};
use std::alloc::{AllocError, Global};

/// How large each of a counter's two sums may be for it to absorb one more update: 2^62.
pub const MAX_SUM: u64 = 4_611_686_018_427_387_904;

/// A counter: the sum of its increments and that of its decrements. No call takes memory, so each
/// succeeds; and each has constant cost.
#[derive(Drop)]
pub struct Counter {
    alloc: Global,
    up: u64,
    down: u64,
    ghost up_bounded: { up < 2 ^ 62 + 2 ^ 32 },
    ghost down_bounded: { down < 2 ^ 62 + 2 ^ 32 },
}

impl Counter {
    /// A counter that has absorbed nothing, which takes no memory.
    pub fn new(alloc: Global) -> Counter
        ensures { CounterIs result.up result.down ≡ start CounterKind }
    {
        Counter {
            alloc,
            up: 0,
            down: 0,
        }
    }
}

// Whether a total is at least a number, which one below zero is not.
fn reaches(total: i64, bound: u64) -> bool
    ensures { result ≡ reaches total bound }
{
    total >= 0 && total as u64 >= bound
}

impl Replicated for Counter {
    ghost use Rattle.la_object.specs.declared.state.State.TheVariants.{Counter as CounterIs};

    ghost state = { λ c. CounterIs c.up c.down };

    fn kind(&self) -> Kind {
        Kind::Counter
    }

    fn fresh(&self) -> bool {
        self.up == 0 && self.down == 0
    }

    fn has_room(&self) -> bool {
        self.up <= MAX_SUM && self.down <= MAX_SUM
    }

    fn absorb(&mut self, update: &Update) -> Result<(), AllocError>
        requires { HasRoom (CounterIs self.old.up self.old.down) }
        ensures room { IsOk result }
        ensures ok { OnOk result (CounterIs self.new.up self.new.down
            ≡ after (CounterIs self.old.up self.old.down) update.now) }
    {
        match &update.op {
            Op::Inc(by) => self.up += *by as u64,
            Op::Dec(by) => self.down += *by as u64,
            _ => {}
        }
        Ok(())
    }

    fn ask(&self, query: &Query) -> Result<Answer, AllocError>
        ensures { result ≡ Ok (reply (CounterIs self.now.up self.now.down) query.now) }
    {
        Ok(match query {
            Query::Total => Answer::Total(self.up as i64 - self.down as i64),
            Query::AtLeast(bound) => {
                Answer::Reached(reaches(self.up as i64 - self.down as i64, *bound))
            }
            _ => Answer::Foreign,
        })
    }

    fn observed(&self, _element: u64) -> Result<Tags, ObserveError>
        ensures { result ≡ Ok [] }
    {
        Ok(Tags::new(self.alloc))
    }

    fn state(&self) -> Result<State, AllocError>
        ensures { result ≡ Ok (CounterIs self.now.up self.now.down) }
    {
        Ok(State::Counter {
            up: self.up,
            down: self.down,
        })
    }
}
