// What the words of `lattice init` say.
ghost use Rattle.std.specs.Prelude.{◌≡◌, false, map, codes, string_bytes, IfOk, IfErr};
ghost use Rattle.clap.specs.Words.{app_of, found_of, rows_of, HasKind, fault_of, with_rule, with_subcommand};
ghost use Rattle.clap.specs.declared.builder.command.Command.TheViews.{out-Command as fields_of};
ghost use Rattle.la_serve.specs.Making.{folder_option, making, making_named, lattice_init};
ghost use Rattle.la_serve.specs.Making.{AreMakingOptions, IsMakingSaid, SaysMaking};

use crate::options::{alone, group_in, with_own, with_votes};
use crate::{Making, Unfit};
use clap::{Arg, ArgMatches, Command, Error, value_parser};
use la_cli::{VERSION, with_number};
use std::alloc::{AllocError, Global};

// What the help of `lattice init` says.
const ABOUT: &str = "Makes the folder of one replica, once: lattice init folder --own 0";

fn with_folder<'a>(alloc: Global, command: Command<'a>) -> Result<Command<'a>, AllocError>
    ensures app { IfOk result (λ made. app_of made ≡ with_rule (app_of command.entry) folder_option) }
    ensures local { (fields_of command.entry).has_globals ≡ false
        → IfOk result (λ made. (fields_of made).has_globals ≡ false) }
{
    let folder = Arg::new(alloc, "folder")
        .value_name("FOLDER")
        .help("The folder, which is there");
    command.arg(folder.required(true))
}

// The command before it has options.
fn named<'a>(alloc: Global) -> Command<'a>
    ensures app { app_of result ≡ making_named }
    ensures local { (fields_of result).has_globals ≡ false }
{
    Command::new(alloc, "init").version(VERSION).about(ABOUT)
}

// Each step owns one command: one that owns several takes a minute to prove.
fn init_command<'a>(alloc: Global) -> Result<Command<'a>, AllocError>
    ensures app { IfOk result (λ made. app_of made ≡ making) }
    ensures local { IfOk result (λ made. (fields_of made).has_globals ≡ false) }
{
    let sizes = value_parser!(u8).range(1..=8);
    let help = "How many replicas, 1 to 8";
    let sized = with_number(alloc, named(alloc), "replicas", sizes, "3", help)?;
    let placed = with_own(alloc, sized)?;
    let objects = value_parser!(u8).range(0..=16);
    let help = "How many adopt-commit objects, 0 to 16";
    let shared = with_number(alloc, placed, "commits", objects, "0", help)?;
    let caps = value_parser!(u32).range(1..=1_000_000);
    let help = "How many updates it may submit, 1 to 1000000";
    let capped = with_number(alloc, shared, "cap", caps, "1000000", help)?;
    let voted = with_votes(alloc, capped)?;
    with_folder(alloc, voted)
}

fn program<'a>(alloc: Global) -> Result<Command<'a>, AllocError>
    ensures { IfOk result (λ made. app_of made ≡ lattice_init) }
{
    let init = init_command(alloc)?;
    alone(alloc).subcommand(init)
}

// What is made, each number of which is there and in its range, or what does not fit.
fn making_in<'a>(
    alloc: Global,
    given: &ArgMatches<'a>,
) -> Result<Result<Making, Unfit<'a>>, AllocError>
    requires { AreMakingOptions (rows_of (found_of given.now)) }
    ensures { IfOk result (SaysMaking (rows_of (found_of given.now))) }
{
    let folder = given.get_str("folder").unwrap();
    let (config, own) = match group_in(given) {
        Ok(group) => group,
        Err(why) => return Ok(Err(why)),
    };
    let folder = String::from_str(alloc, folder)?;
    Ok(Ok(Making {
        config,
        own,
        folder,
    }))
}

/// What the words of a command line of `lattice init` say, the program's name first: what is made, or what does not fit
/// in its group.
///
/// Its parts are those that were given, or their defaults, each in its range. An error has a kind that `clap` finds in
/// the words: they ask for help or for the version, also as `help init`, or they are mistaken, as all words are that
/// name another subcommand. Or its kind is `OutOfMemory`, which comes of memory alone.
pub fn init<'a>(alloc: Global, words: &'a [String]) -> Result<Result<Making, Unfit<'a>>, Error>
    ensures ok { IfOk result (IsMakingSaid (map string_bytes words.now)) }
    ensures error { IfErr result (HasKind (fault_of lattice_init (map string_bytes words.now))) }
{
    let matches = program(alloc)?.try_get_matches_from(words)?;
    match matches.subcommand() {
        Some((_, given)) => Ok(making_in(alloc, given)?),
        // `crate::proofs::MakingLines::faultless_init`: a subcommand is required.
        None => unreachable!(),
    }
}
