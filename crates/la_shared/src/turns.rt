// The table behind an acceptor: its rule, and what each kind of step tells. Both are defined in
// specs/Turns.antt.
ghost use Rattle.std.specs.Prelude.{[]};
ghost use Rattle.la_set.specs.Histories.{Histories, empty};
ghost use Rattle.la_acceptor.specs.declared.reply.Reply.{Reply};
ghost use Rattle.la_acceptor.specs.declared.reply.Reply.TheVariants.{Yes};
ghost use Rattle.la_shared.specs.Turns.{Draws, Looks, RecordsEntry, Serves, Tells};
ghost use Rattle.la_shared.specs.Turns.{new_caller, informed};

use crate::caller::Caller;
use atomic_table::{Join, Play, Seat, Split, TableRule};
use la_acceptor::Acceptor;
use std::marker::{Brand, PhantomData};

/// The rule of the table.
pub struct Turns;

impl TableRule<Option<Acceptor>, Caller, ()> for Turns {
    ghost use Rattle.la_shared.specs.Turns.{IsKept, new_caller};
    ghost use Rattle.std.specs.Prelude.{[]};

    ghost holds = { λ _. IsKept };

    ghost first = { λ _. new_caller [] };
}

pub type Ticketed = Seat<Option<Acceptor>, Caller>;

/// What is offered, and what the reply is: each call of a record picks both.
pub trait Offered {
    ghost set: { Histories };

    ghost reply: { Reply };
}

impl Offered for Brand {
    ghost set = { empty };

    ghost reply = { Yes };
}

pub struct Draw;

impl Play<Option<Acceptor>, Caller> for Draw {
    ghost then = { Draws };
}

pub struct Look;

impl Play<Option<Acceptor>, Caller> for Look {
    ghost then = { Looks };
}

pub struct Record<J> {
    marker: PhantomData<J>,
}

impl<J: Offered> Play<Option<Acceptor>, Caller> for Record<J> {
    ghost then = { RecordsEntry J.set J.reply };
}

pub struct Serve;

impl Play<Option<Acceptor>, Caller> for Serve {
    ghost then = { Serves };
}

pub struct Another;

impl Split<Caller> for Another {
    ghost left = { λ caller. caller };

    ghost right = { λ caller. new_caller caller.seen };
}

pub struct Meeting;

impl Join<Caller> for Meeting {
    ghost both = { informed };

    ghost spent = { new_caller [] };
}

pub struct Tell;

impl Play<Option<Acceptor>, Caller> for Tell {
    ghost then = { Tells };
}
