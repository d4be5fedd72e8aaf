// What does not fit in options of which `clap` takes each, and what is told of that.
ghost use Rattle.std.specs.Prelude.{◌≡◌, ◌++◌, ◌⊎◌, IfOk, OnOk};
ghost use Rattle.std.specs.Fmt.{decimal};
ghost use Rattle.la_io.specs.Streams.{TellsLine};
ghost use Rattle.la_serve.specs.declared.error.NodeFault.TheVariants.{BadConfig};
ghost use Rattle.la_serve.specs.Ending.{end_line};
ghost use Rattle.la_serve.specs.Unfit.{unfit_objects, unfit_text, unfit_line};

use crate::{NodeFault, end_with};
use itoa::Buffer;
use la_io::{Listener, tell_all};
use std::alloc::{AllocError, Global};

/// What does not fit in the options of a node, or of a folder to be made. It is shown with the option's name.
#[derive(Clone, Copy)]
pub enum Unfit<'a> {
    /// `--votes` has so many counts, and the group so many replicas.
    Votes(usize, u8),

    /// `--votes` has other than 1 to 8 counts, or one that is not from 1 to 1,000.
    NoVotes,

    /// `--own` is this, and the group has so many replicas.
    Own(u8, u8),

    /// `--objects` says no objects of a shelf.
    Objects(UnfitObjects<'a>),
}

/// What does not fit in a text of objects: of its parts from the first on, this.
#[derive(Clone, Copy)]
pub enum UnfitObjects<'a> {
    /// Before the `=` stands this, which is no number from 0 to 65,535.
    NoNumber(&'a [u8]),

    /// Behind it stands this, which is no kind. Without `=` there is nothing behind it.
    NoKind(&'a [u8]),

    /// This number stands before another `=` too.
    Twice(u16),

    /// There are more than 64.
    TooMany,
}

// Puts a number in decimal.
fn put_decimal(line: &mut Vec<u8>, number: usize) -> Result<(), AllocError>
    ensures { OnOk result (line.new.items ≡ line.old.items ++ decimal number) }
{
    line.extend_from_slice(Buffer::new().format(number).as_bytes())
}

// Puts what does not fit in a text of objects.
fn put_objects(line: &mut Vec<u8>, why: UnfitObjects<'_>) -> Result<(), AllocError>
    ensures { OnOk result (line.new.items ≡ line.old.items ++ unfit_objects why.entry) }
{
    match why {
        UnfitObjects::NoNumber(text) => {
            line.push(b'\'')?;
            line.extend_from_slice(text)?;
            line.extend_from_slice(b"' is no number from 0 to 65535")
        }
        UnfitObjects::NoKind(text) => {
            line.push(b'\'')?;
            line.extend_from_slice(text)?;
            line.extend_from_slice(b"' is no kind")
        }
        UnfitObjects::Twice(number) => {
            line.extend_from_slice(b"number ")?;
            put_decimal(line, usize::from(number))?;
            line.extend_from_slice(b" stands twice")
        }
        UnfitObjects::TooMany => line.extend_from_slice(b"more than 64"),
    }
}

// Puts the option that does not fit, and why.
fn put_unfit(line: &mut Vec<u8>, why: Unfit<'_>) -> Result<(), AllocError>
    ensures { OnOk result (line.new.items ≡ line.old.items ++ unfit_text why.entry) }
{
    match why {
        Unfit::Votes(counts, replicas) => {
            line.extend_from_slice(b"--votes: ")?;
            put_decimal(line, counts)?;
            line.extend_from_slice(b" counts for ")?;
            put_decimal(line, usize::from(replicas))?;
            line.extend_from_slice(b" replicas")
        }
        Unfit::NoVotes => {
            line.extend_from_slice(b"--votes: other than 1 to 8 counts from 1 to 1000")
        }
        Unfit::Own(own, replicas) => {
            line.extend_from_slice(b"--own: ")?;
            put_decimal(line, usize::from(own))?;
            line.extend_from_slice(b" of ")?;
            put_decimal(line, usize::from(replicas))
        }
        Unfit::Objects(why) => {
            line.extend_from_slice(b"--objects: ")?;
            put_objects(line, why)
        }
    }
}

// The line that tells it.
fn unfit_line(alloc: Global, why: Unfit<'_>) -> Result<Vec<u8>, AllocError>
    ensures { IfOk result (λ line. line.items ≡ unfit_line why.entry) }
{
    let mut line = Vec::new(alloc);
    line.extend_from_slice(b"BadConfig: ")?;
    put_unfit(&mut line, why)?;
    line.push(b'\n')?;
    Ok(line)
}

/// The exit status where options don't fit, 2 as where `clap` refuses them, and the line that tells which, and why:
/// `BadConfig` alone, where there is no memory for that.
pub fn end_unfit<E: Listener>(alloc: Global, why: Unfit<'_>, errors: &mut E) -> u8
    ensures status { result ≡ 2 }
    ensures told { TellsLine E.contents E.refuses errors.old errors.new (unfit_line why.entry)
        ⊎ TellsLine E.contents E.refuses errors.old errors.new (end_line BadConfig) }
{
    match unfit_line(alloc, why) {
        Ok(line) => {
            let _ = tell_all(errors, &line);
            2
        }
        Err(_) => end_with(NodeFault::BadConfig, errors),
    }
}
