// What the program is called for.
ghost use Rattle.std.specs.Prelude.{◌≡◌, false, map, string_bytes, IfOk, IfErr, Some, pos};
ghost use Rattle.clap.specs.Words.{app_of, found_of, rows_of, rule_of, HasKind, fault_of};
ghost use Rattle.clap.specs.Words.{with_rule, with_subcommand};
ghost use Rattle.clap.specs.declared.builder.command.Command.TheViews.{out-Command as fields_of};
ghost use Rattle.clap.specs.declared.builder.value_parser.ValueParser.TheVariants.{Signed};
ghost use Rattle.la_cli.specs.Calls.{option, play, random, threads, node_app, lattice};
ghost use Rattle.la_cli.specs.Calls.{lattice_alone};
ghost use Rattle.la_cli.specs.Calls.{AreDrawOptions, AreSizesTaken, Calls, IsDraw, IsRunTask, IsInRange};

use clap::builder::ValueParser;
use clap::{Arg, ArgMatches, Command, Error, value_parser};
use std::alloc::{AllocError, Global};

/// What a command line can call for.
#[derive(Clone, Copy)]
pub enum Task {
    /// A script is read on standard input and played, and its report is printed.
    Play,
    /// Events are drawn and played, and their report is printed.
    Random {
        /// What the draws begin with.
        seed: u32,
        /// How many replicas the group has: 1 to 8.
        replicas: u8,
        /// How many events are drawn: 1 to 10,000.
        events: u32,
    },
    /// A group is run with a thread for each replica, and what its logs come to is printed.
    Threads {
        /// How many replicas the group has: 1 to 8.
        replicas: u8,
        /// How many updates each of them makes: 1 to 1,000.
        each: u32,
    },
}

/// The version of the program, which `lattice --version` prints.
pub const VERSION: &str = "0.5.0";

/// What the help of `lattice` and of `lattice node` says of a node.
pub const ABOUT_NODE: &str =
    "Runs one replica of a group over lines: lattice node --own 0 --journal folder; see help call";

const ABOUT: &str = "Plays scripts of a group of replicas that agree without consensus";

// An option with a number.
fn number<'a>(
    alloc: Global,
    name: &'a str,
    parser: ValueParser<'a>,
    otherwise: &'a str,
    help: &'a str,
) -> Arg<'a>
    ensures rule { (least most : _) → parser.entry ≡ Signed (pos least) (pos most)
        → rule_of result ≡ option name.entry.now least most otherwise.entry.now }
    ensures local { result.global ≡ false }
{
    Arg::new(alloc, name)
        .long(name)
        .value_name("N")
        .value_parser(parser)
        .default_value(otherwise)
        .help(help)
}

fn play_command<'a>(alloc: Global) -> Command<'a>
    ensures app { app_of result ≡ play }
    ensures local { (fields_of result).has_globals ≡ false }
{
    Command::new(alloc, "play").about("Plays the script on standard input: lattice play <script")
}

/// The command with one more option with a number, which may be left out.
pub fn with_number<'a>(
    alloc: Global,
    command: Command<'a>,
    name: &'a str,
    parser: ValueParser<'a>,
    otherwise: &'a str,
    help: &'a str,
) -> Result<Command<'a>, AllocError>
    ensures app { (least most : _) → parser.entry ≡ Signed (pos least) (pos most)
        → IfOk result (λ made. app_of made ≡ with_rule (app_of command.entry)
        (option name.entry.now least most otherwise.entry.now)) }
    ensures local { (fields_of command.entry).has_globals ≡ false
        → IfOk result (λ made. (fields_of made).has_globals ≡ false) }
{
    command.arg(number(alloc, name, parser, otherwise, help))
}

fn random_command<'a>(alloc: Global) -> Result<Command<'a>, AllocError>
    ensures app { IfOk result (λ made. app_of made ≡ random) }
    ensures local { IfOk result (λ made. (fields_of made).has_globals ≡ false) }
{
    let start = Command::new(alloc, "random").about(
        "Draws events from a seed and plays them: lattice random --seed 7 --replicas 5",
    );
    let seeds = value_parser!(u32);
    let seeded = with_number(
        alloc,
        start,
        "seed",
        seeds,
        "1",
        "What the draws begin with",
    )?;
    let sizes = value_parser!(u8).range(1..=8);
    let help = "How many replicas, 1 to 8";
    let sized = with_number(alloc, seeded, "replicas", sizes, "3", help)?;
    let counts = value_parser!(u32).range(1..=10_000);
    let help = "How many events, 1 to 10000";
    with_number(alloc, sized, "events", counts, "100", help)
}

fn threads_command<'a>(alloc: Global) -> Result<Command<'a>, AllocError>
    ensures app { IfOk result (λ made. app_of made ≡ threads) }
    ensures local { IfOk result (λ made. (fields_of made).has_globals ≡ false) }
{
    let start = Command::new(alloc, "threads").about(
        "Runs replicas in threads of their own: lattice threads --replicas 4 --each 50",
    );
    let sizes = value_parser!(u8).range(1..=8);
    let help = "How many replicas, 1 to 8";
    let sized = with_number(alloc, start, "replicas", sizes, "3", help)?;
    let counts = value_parser!(u32).range(1..=1000);
    let help = "How many updates each makes, 1 to 1000";
    with_number(alloc, sized, "each", counts, "10", help)
}

// A node is listed, and run by the program's `main`: here each of its words is a mistake, or asks for help.
fn node_command<'a>(alloc: Global) -> Command<'a>
    ensures app { app_of result ≡ node_app }
    ensures local { (fields_of result).has_globals ≡ false }
{
    Command::new(alloc, "node")
        .about(ABOUT_NODE)
        .subcommand_required(true)
        .arg_required_else_help(true)
}

// The program's command before it has subcommands.
fn alone<'a>(alloc: Global) -> Command<'a>
    ensures { app_of result ≡ lattice_alone }
{
    Command::new(alloc, "lattice")
        .version(VERSION)
        .about(ABOUT)
        .subcommand_required(true)
}

fn with_random<'a>(alloc: Global, command: Command<'a>) -> Result<Command<'a>, AllocError>
    ensures { IfOk result (λ made.
        app_of made ≡ with_subcommand (app_of command.entry) random.top) }
{
    let random = random_command(alloc)?;
    command.subcommand(random)
}

fn with_threads<'a>(alloc: Global, command: Command<'a>) -> Result<Command<'a>, AllocError>
    ensures { IfOk result (λ made.
        app_of made ≡ with_subcommand (app_of command.entry) threads.top) }
{
    let threads = threads_command(alloc)?;
    command.subcommand(threads)
}

fn with_node<'a>(alloc: Global, command: Command<'a>) -> Result<Command<'a>, AllocError>
    ensures { IfOk result (λ made.
        app_of made ≡ with_subcommand (app_of command.entry) node_app.top) }
{
    command.subcommand(node_command(alloc))
}

// Each step owns one command: one that owns three takes a minute to prove.
fn program<'a>(alloc: Global) -> Result<Command<'a>, AllocError>
    ensures app { IfOk result (λ made. app_of made ≡ lattice) }
{
    let plays = alone(alloc).subcommand(play_command(alloc))?;
    let draws = with_random(alloc, plays)?;
    let runs = with_threads(alloc, draws)?;
    with_node(alloc, runs)
}

// The numbers of a draw, each of which is there and in its range.
fn drawn(given: &ArgMatches<'_>) -> Task
    requires { AreDrawOptions (rows_of (found_of given.now)) }
    ensures { IsDraw (rows_of (found_of given.now)) result }
{
    Task::Random {
        seed: given.get_one::<u32>("seed").unwrap(),
        replicas: given.get_one::<u8>("replicas").unwrap(),
        events: given.get_one::<u32>("events").unwrap(),
    }
}

// The numbers of a run, each of which is there and in its range.
fn run_of(given: &ArgMatches<'_>) -> Task
    requires { AreSizesTaken (rows_of (found_of given.now)) }
    ensures { IsRunTask (rows_of (found_of given.now)) result }
{
    Task::Threads {
        replicas: given.get_one::<u8>("replicas").unwrap(),
        each: given.get_one::<u32>("each").unwrap(),
    }
}

/// What the words of a command line call for, the program's name first.
///
/// Words in which nothing is wrong call for a task; the numbers of a draw or a run are those of its
/// options, or their defaults. An error has a kind that `clap` finds in the words: they ask for help or for the
/// version, or they are mistaken. Or its kind is `OutOfMemory`, which comes of memory alone.
///
/// `node` is listed beside the tasks and is none: its words are always an error here, and the crate
/// `la_serve` reads them.
pub fn command(alloc: Global, words: &[String]) -> Result<Task, Error>
    ensures ok { IfOk result (Calls (map string_bytes words.now)) }
    ensures range { IfOk result IsInRange }
    ensures error { IfErr result (HasKind (fault_of lattice (map string_bytes words.now))) }
{
    let matches = program(alloc)?.try_get_matches_from(words)?;
    match matches.subcommand() {
        Some((name, _)) if name == "play" => Ok(Task::Play),
        Some((name, given)) if name == "random" => Ok(drawn(given)),
        Some((name, given)) if name == "threads" => Ok(run_of(given)),
        // `crate::proofs::CommandLines::faultless_names`: a subcommand is required, and nothing is
        // right with the words of any other.
        _ => unreachable!(),
    }
}
