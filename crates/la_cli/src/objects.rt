// The program with its own objects, which are boxed here, where their types are known.
ghost use Rattle.std.specs.Prelude.{◌≡◌, map, string_bytes, IfOk, IfErr};
ghost use Rattle.la_object.specs.declared.error.ShelfError.TheVariants.{Memory};
ghost use Rattle.la_object.specs.declared.kind.Kind.TheVariants.{Counter as CounterKind};
ghost use Rattle.la_object.specs.declared.kind.Kind.TheVariants.{MaxRegister as RegisterKind};
ghost use Rattle.la_object.specs.declared.kind.Kind.TheVariants.{OrSet as SetKind};
ghost use Rattle.la_object.specs.Objects.{start};
ghost use Rattle.la_cli.specs.Program.{IsExitStatus, heard, streamed};
ghost use Rattle.la_cli.specs.Shelves.{states_of, standard_objects, standard_shelves, MakesStandard};

use crate::program::{end_without_words, run_words};
use crate::shelves::{Numbered, fill};
use la_io::Listener;
use la_object::{Counter, MaxRegister, Replicated, Shelf, ShelfError};
use la_orset::OrSet;
use la_set::REPLICAS;
use std::alloc::{AllocError, Global};
use std::io::{ErrorKind, Read, Write};
use std::sync::Wait;
use std::thread::Threads;

// Three objects under the numbers that they have on each shelf.
fn numbered<B: Replicated>(
    alloc: Global,
    counter: B,
    register: B,
    set: B,
) -> Result<Numbered<B>, AllocError>
    requires counter { B.state counter ≡ start CounterKind }
    requires register { B.state register ≡ start RegisterKind }
    requires set { B.state set ≡ start SetKind }
    ensures { IfOk result (λ objects. states_of B.state objects.items ≡ standard_objects) }
{
    let mut objects = Vec::with_capacity(alloc, 3)?;
    objects.push((1, counter))?;
    objects.push((2, register))?;
    objects.push((3, set))?;
    Ok(objects)
}

// A shelf for each of eight replicas, with the objects that are made for it. Only want of memory is
// refused.
fn shelves_of<B: Replicated, F: Fn() -> Result<Numbered<B>, AllocError>>(
    alloc: Global,
    make: F,
) -> Result<Vec<Shelf<B>>, ShelfError>
    requires callable { F.pre make }
    requires made { (objects : _) → F.post make objects
        → IfOk objects (λ v. states_of B.state v.items ≡ standard_objects) }
    ensures ok { IfOk result (λ shelves. shelves.items ≡ standard_shelves) }
    ensures error { IfErr result (λ e. e ≡ Memory) }
{
    let mut all = Vec::with_capacity(alloc, REPLICAS as usize)?;
    for _ in 0..REPLICAS {
        all.push(make()?)?;
    }
    fill(alloc, all)
}

// The program with such objects.
fn run_with<P: Threads + Wait + Sync, R: Read, W: Write, E: Listener, B: Replicated, F>(
    rt: &P,
    alloc: Global,
    words: &[String],
    input: &mut R,
    output: &mut W,
    errors: &mut E,
    make: F,
) -> u8
where
    F: Fn() -> Result<Numbered<B>, AllocError>,
    requires { MakesStandard B.state F.pre F.post make }
    ensures { IsExitStatus (map string_bytes words.now) standard_shelves (streamed R.remaining W.contents
        (input.old, output.old) (input.new, output.new)) (heard E.contents E.refuses errors.old errors.new) result }
{
    match shelves_of(alloc, make) {
        Ok(shelves) => run_words(rt, alloc, words, input, output, errors, shelves),
        Err(_) => end_without_words(ErrorKind::OutOfMemory, errors).status,
    }
}

/// The program over any streams, called by these words, its name first: its exit status.
///
/// Each of the eight replicas that a group may have has a shelf with a counter under 1, a max
/// register under 2 and an observed-remove set under 3. Want of memory while these are made is told
/// as any other, with nothing read or written. Where `errors` does not take what is told, a front of
/// it was written, and the status is the same.
pub fn run_boxed<P: Threads + Wait + Sync, R: Read, W: Write, E: Listener>(
    rt: &P,
    alloc: Global,
    words: &[String],
    input: &mut R,
    output: &mut W,
    errors: &mut E,
) -> u8
    ensures { IsExitStatus (map string_bytes words.now) standard_shelves
        (streamed R.remaining W.contents (input.old, output.old) (input.new, output.new))
        (heard E.contents E.refuses errors.old errors.new) result }
{
    let make = || -> Result<Numbered<Box<dyn Replicated + Send>>, AllocError>
        ensures { IfOk result (λ objects. states_of state objects.items ≡ standard_objects) }
    {
        let set: Box<dyn Replicated + Send> = Box::new(alloc, OrSet::new(alloc))?;
        let counter: Box<dyn Replicated + Send> = Box::new(alloc, Counter::new(alloc))?;
        let register: Box<dyn Replicated + Send> = Box::new(alloc, MaxRegister::new(alloc))?;
        numbered(alloc, counter, register, set)
    };
    run_with(rt, alloc, words, input, output, errors, make)
}
