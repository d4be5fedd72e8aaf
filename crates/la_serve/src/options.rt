// What the words of `lattice node` say.
ghost use Rattle.std.specs.Prelude.{◌≡◌, false, map, codes, string_bytes, IfOk, IfErr, pos, ◌≤◌};
ghost use Rattle.clap.specs.Words.{app_of, found_of, rows_of, rule_of, HasKind, fault_of, with_rule};
ghost use Rattle.clap.specs.Words.{many_of, with_subcommand};
ghost use Rattle.clap.specs.declared.builder.command.Command.TheViews.{out-Command as fields_of};
ghost use Rattle.clap.specs.declared.builder.value_parser.ValueParser.TheVariants.{Signed};
ghost use Rattle.la_cli.specs.Calls.{lattice_alone};
ghost use Rattle.la_serve.specs.Options.{number_option as number_rule, own as own_rule, votes_option as votes_rule};
ghost use Rattle.la_serve.specs.Options.{journal_option as journal_rule, node, node_named, lattice_node};
ghost use Rattle.la_serve.specs.Options.{objects_option as objects_rule};
ghost use Rattle.la_serve.specs.Options.{AreGroupOptions, AreNodeOptions, IsSaid, IsVotes, SaysOptions};
ghost use Rattle.la_serve.specs.Options.{IsGroupGiven, IsGroupUnfit};

use crate::{Objects, Unfit};
use arrayvec::ArrayVec;
use clap::builder::ValueParser;
use clap::{Arg, ArgMatches, Command, Error, value_parser};
use la_cli::{ABOUT_NODE, VERSION, with_number};
use la_node::Config;
use la_proposer::Votes;
use std::alloc::{AllocError, Global};

/// What a node is called with.
#[derive(Drop)]
pub struct Options {
    /// Its group.
    pub config: Config,
    /// Which replica it is, from 0 on.
    pub own: u8,
    /// How many seconds without input until it ticks by itself the first time, at most 3,600; with 0 it never does.
    pub tick: u16,
    /// How many kibibytes its journal must have for a start to compact it, at most 1,000,000; with 0 none does.
    pub compact: u32,
    /// The objects of its shelf.
    pub objects: Objects,
    /// The folder of its journal.
    pub folder: String,
}

// An option with a number.
fn number<'a>(alloc: Global, name: &'a str, parser: ValueParser<'a>, help: &'a str) -> Arg<'a>
    ensures rule { (least most : _) → parser.entry ≡ Signed (pos least) (pos most)
        → rule_of result ≡ number_rule name.entry.now least most }
    ensures local { result.global ≡ false }
{
    Arg::new(alloc, name)
        .long(name)
        .value_name("N")
        .value_parser(parser)
        .help(help)
}

pub(crate) fn with_own<'a>(alloc: Global, command: Command<'a>) -> Result<Command<'a>, AllocError>
    ensures app { IfOk result (λ made. app_of made ≡ with_rule (app_of command.entry) own_rule) }
    ensures local { (fields_of command.entry).has_globals ≡ false
        → IfOk result (λ made. (fields_of made).has_globals ≡ false) }
{
    let places = value_parser!(u8).range(0..=7);
    let own = number(alloc, "own", places, "Which of them this is, from 0");
    command.arg(own.required(true))
}

pub(crate) fn with_votes<'a>(alloc: Global, command: Command<'a>) -> Result<Command<'a>, AllocError>
    ensures app { IfOk result (λ made. app_of made ≡ with_rule (app_of command.entry) votes_rule) }
    ensures local { (fields_of command.entry).has_globals ≡ false
        → IfOk result (λ made. (fields_of made).has_globals ≡ false) }
{
    let weights = value_parser!(u16).range(1..=1000);
    let help = "The votes of each replica, 1 to 1000";
    let votes = number(alloc, "votes", weights, help);
    command.arg(votes.num_args(1..=8))
}

fn with_objects<'a>(alloc: Global, command: Command<'a>) -> Result<Command<'a>, AllocError>
    ensures app { IfOk result (λ made. app_of made ≡ with_rule (app_of command.entry) objects_rule) }
    ensures local { (fields_of command.entry).has_globals ≡ false
        → IfOk result (λ made. (fields_of made).has_globals ≡ false) }
{
    let help =
        "The objects on its shelf, NUMBER=KIND with commas between; KIND is counter, max or set";
    let objects = Arg::new(alloc, "objects")
        .long("objects")
        .value_name("LIST")
        .default_value("1=counter,2=max,3=set")
        .help(help);
    command.arg(objects)
}

fn with_journal<'a>(alloc: Global, command: Command<'a>) -> Result<Command<'a>, AllocError>
    ensures app { IfOk result (λ made. app_of made ≡ with_rule (app_of command.entry) journal_rule) }
    ensures local { (fields_of command.entry).has_globals ≡ false
        → IfOk result (λ made. (fields_of made).has_globals ≡ false) }
{
    let journal = Arg::new(alloc, "journal")
        .long("journal")
        .value_name("FOLDER")
        .help("The folder of the journal");
    command.arg(journal.required(true))
}

// Each step owns one command: one that owns several takes a minute to prove.
fn node_command<'a>(alloc: Global) -> Result<Command<'a>, AllocError>
    ensures app { IfOk result (λ made. app_of made ≡ node) }
    ensures local { IfOk result (λ made. (fields_of made).has_globals ≡ false) }
{
    let start = Command::new(alloc, "node")
        .version(VERSION)
        .about(ABOUT_NODE);
    let sizes = value_parser!(u8).range(1..=8);
    let help = "How many replicas, 1 to 8";
    let sized = with_number(alloc, start, "replicas", sizes, "3", help)?;
    let placed = with_own(alloc, sized)?;
    let objects = value_parser!(u8).range(0..=16);
    let help = "How many adopt-commit objects, 0 to 16";
    let shared = with_number(alloc, placed, "commits", objects, "0", help)?;
    let caps = value_parser!(u32).range(1..=1_000_000);
    let help = "How many updates it may submit, 1 to 1000000";
    let capped = with_number(alloc, shared, "cap", caps, "1000000", help)?;
    let ticks = value_parser!(u16).range(0..=3600);
    let help = "Seconds until it ticks by itself, 0 to 3600; 0 is never";
    let timed = with_number(alloc, capped, "tick", ticks, "0", help)?;
    let kibibytes = value_parser!(u32).range(0..=1_000_000);
    let help = "From how many KiB of journal a start compacts it, 0 to 1000000; 0 is never";
    let compacted = with_number(alloc, timed, "compact", kibibytes, "0", help)?;
    let shelved = with_objects(alloc, compacted)?;
    let voted = with_votes(alloc, shelved)?;
    with_journal(alloc, voted)
}

// The program's command before it has a subcommand.
pub(crate) fn alone<'a>(alloc: Global) -> Command<'a>
    ensures { app_of result ≡ lattice_alone }
{
    Command::new(alloc, "lattice")
        .version(VERSION)
        .subcommand_required(true)
}

fn program<'a>(alloc: Global) -> Result<Command<'a>, AllocError>
    ensures { IfOk result (λ made. app_of made ≡ lattice_node) }
{
    let node = node_command(alloc)?;
    alone(alloc).subcommand(node)
}

// The votes that were given, where they are those of a group; one for each replica, where none were.
fn votes_in(given: &ArgMatches<'_>, replicas: u8) -> Option<Votes>
    requires some { 1 ≤ replicas }
    requires few { replicas ≤ 8 }
    ensures { IsVotes (many_of (codes "votes") (rows_of (found_of given.now))) replicas result }
{
    let Some(values) = given.get_many::<u16>("votes") else {
        return Some(Votes::one_each(replicas));
    };
    let mut votes = ArrayVec::<u16, 8>::new();
    for value in values {
        let Ok(count) = value else {
            return None;
        };
        if votes.try_push(count).is_err() {
            return None;
        }
    }
    Votes::new(votes.as_slice()).ok()
}

// The group that was given, and which replica of it, each number of which is there and in its range.
pub(crate) fn group_in<'a>(given: &ArgMatches<'_>) -> Result<(Config, u8), Unfit<'a>>
    requires { AreGroupOptions (rows_of (found_of given.now)) }
    ensures ok { IfOk result (λ group. IsGroupGiven (rows_of (found_of given.now)) group.0 group.1) }
    ensures error { IfErr result (IsGroupUnfit (rows_of (found_of given.now))) }
{
    let replicas = given.get_one::<u8>("replicas").unwrap();
    let own = given.get_one::<u8>("own").unwrap();
    let commits = given.get_one::<u8>("commits").unwrap();
    let cap = given.get_one::<u32>("cap").unwrap();
    let Some(votes) = votes_in(given, replicas) else {
        return Err(Unfit::NoVotes);
    };
    let counts = votes.len();
    if counts != usize::from(replicas) {
        return Err(Unfit::Votes(counts, replicas));
    }
    if own >= replicas {
        return Err(Unfit::Own(own, replicas));
    }
    let config = Config {
        replicas,
        commits,
        cap,
        votes,
    };
    Ok((config, own))
}

// The options, each number of which is there and in its range, or what does not fit.
fn options_in<'a>(
    alloc: Global,
    given: &ArgMatches<'a>,
) -> Result<Result<Options, Unfit<'a>>, AllocError>
    requires { AreNodeOptions (rows_of (found_of given.now)) }
    ensures { IfOk result (SaysOptions (rows_of (found_of given.now))) }
{
    let tick = given.get_one::<u16>("tick").unwrap();
    let compact = given.get_one::<u32>("compact").unwrap();
    let said = given.get_str("objects").unwrap();
    let folder = given.get_str("journal").unwrap();
    let (config, own) = match group_in(given) {
        Ok(group) => group,
        Err(why) => return Ok(Err(why)),
    };
    let objects = match Objects::read(said) {
        Ok(objects) => objects,
        Err(why) => return Ok(Err(Unfit::Objects(why))),
    };
    let folder = String::from_str(alloc, folder)?;
    Ok(Ok(Options {
        config,
        own,
        tick,
        compact,
        objects,
        folder,
    }))
}

/// What the words of a command line of `lattice node` say, the program's name first: its options, or what does not fit
/// in them, first in the group and then in the objects.
///
/// The options are those that were given, or their defaults, each in its range. An error has a kind that
/// `clap` finds in the words: they ask for help or for the version, also as `help node`, or they are
/// mistaken, as all words are that name another subcommand. Or its kind is `OutOfMemory`, which comes of
/// memory alone.
pub fn command<'a>(alloc: Global, words: &'a [String]) -> Result<Result<Options, Unfit<'a>>, Error>
    ensures ok { IfOk result (IsSaid (map string_bytes words.now)) }
    ensures error { IfErr result (HasKind (fault_of lattice_node (map string_bytes words.now))) }
{
    let matches = program(alloc)?.try_get_matches_from(words)?;
    match matches.subcommand() {
        Some((_, given)) => Ok(options_in(alloc, given)?),
        // `crate::proofs::OptionLines::faultless_node`: a subcommand is required.
        None => unreachable!(),
    }
}
