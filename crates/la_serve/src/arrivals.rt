// When ticks begin anew: where something has come that matters.
ghost use Rattle.std.specs.Prelude.{◌≡◌, true, false};
ghost use Rattle.la_serve.specs.Arrivals.{IsBegin, EndsInterval, IsSameHeard, HearsReplica};

use std::mem;

/// Whether something has come that matters, so that a [`Paced`](la_io::Paced) input begins anew: a line that is kept,
/// or any line of another replica that was silent, of which none came since the last tick nor in the two intervals
/// before it. What a node hears of itself over a broker, and what others say again and again, is neither: so ticks
/// become seldom where nothing else comes. It takes no memory.
#[derive(Clone, Copy)]
pub struct Arrivals {
    // By replica, whether it was heard: since the last tick, in the interval before that, and in the one before.
    pub(crate) heard: [bool; 8],
    pub(crate) before: [bool; 8],
    pub(crate) earlier: [bool; 8],
    pub(crate) matters: bool,
}

impl Arrivals {
    /// Nothing has come yet, and nobody is silent.
    pub fn none() -> Arrivals
        ensures { IsBegin result }
    {
        Arrivals {
            heard: [false; 8],
            before: [true; 8],
            earlier: [true; 8],
            matters: false,
        }
    }

    /// A tick came: the interval ends.
    pub fn tick(&mut self)
        ensures { EndsInterval self.old self.new }
    {
        self.earlier = self.before;
        self.before = self.heard;
        self.heard = [false; 8];
    }

    /// A line of another replica of the group came.
    pub fn hear(&mut self, replica: u8)
        ensures { HearsReplica replica self.old self.new }
    {
        let place = replica as usize;
        if place < 8 {
            let known = self.heard[place] || self.before[place] || self.earlier[place];
            self.matters = self.matters || !known;
            self.heard[place] = true;
        }
    }

    /// A line was kept.
    pub fn keep(&mut self)
        ensures matters { self.new.matters ≡ true }
        ensures same { IsSameHeard self.old self.new }
    {
        self.matters = true;
    }

    /// Whether something has come that matters since this was asked last.
    pub fn take(&mut self) -> bool
        ensures result { result ≡ self.old.matters }
        ensures matters { self.new.matters ≡ false }
        ensures same { IsSameHeard self.old self.new }
    {
        mem::replace(&mut self.matters, false)
    }
}
