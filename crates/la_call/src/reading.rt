// What the words of `lattice call` say.
ghost use Rattle.std.specs.Prelude.{◌≡◌, ◌++◌, false, true, map, codes, string_bytes, option_map, IfOk, IfErr, OnOk, pos};
ghost use Rattle.clap.specs.Words.{app_of, found_of, rows_of, rule_of, HasKind, fault_of, with_rule};
ghost use Rattle.clap.specs.Words.{first_of, with_subcommand};
ghost use Rattle.clap.specs.declared.builder.command.Command.TheViews.{out-Command as fields_of};
ghost use Rattle.la_cli.specs.Calls.{lattice_alone};
ghost use Rattle.la_call.specs.Options.{text_option, words_rule, call as call_app, lattice_call, joined_words, spaced_words, call_named};
ghost use Rattle.la_call.specs.Options.{AreCallRows, IsCallSaid, SaysGiven, SaysRequest, is_well_named};

use crate::CallOptions;
use crate::words::{is_name, is_request};
use clap::{Arg, ArgAction, ArgMatches, Command, Error, value_parser};
use la_cli::{VERSION, with_number};
use std::alloc::{AllocError, Global};

const ABOUT: &str =
    "Writes a request to a node, and prints the answer: lattice call --out to0 submit 0 1 inc 5";

const READS: &str = "Where the answer is read, in place of standard input: a file or a fifo";

const WRITES: &str =
    "Where the request is written, in place of standard output: a file or a fifo that exists";

const WAITS: &str = "Seconds until a time-out, 0 to 3600; 0 is never";

const REPEATS: &str = "How often a request is written at most that may be repeated, 1 to 1000";

const NAMES: &str =
    "What the answer ends in: 1 to 32 letters, digits or `_.:-`; drawn where it is left out";

const WORDS: &str = "The request, without LF and `@`";

const AFTER: &str = "\
The answer is the first line that begins with `#` and ends in ` @NAME`, but for `# rR waiting ..`, behind
which the request is to be written again. It is printed on standard output; where the request was written
there, on standard error.

At a time-out the request is written again, if it is `ask`, `update`, `status`, `decide` or `submit R.K`,
and was not so often; else the call ends. The next time-out takes twice as long, up to a minute, whatever
lines come. A line `tick` that is read is a time-out too.

--out is opened before --in, and a fifo is open once another process has its other end.

Exit status: 0; 1 where the answer is `# rR refused ..`; 2 where the words are no call; 3 for want of
memory; 4 where a stream fails; 6 where the input or the waiting ends without an answer.";

// An option with a text.
fn text<'a>(alloc: Global, name: &'a str, value: &'a str, help: &'a str) -> Arg<'a>
    ensures rule { rule_of result ≡ text_option name.entry.now }
    ensures local { result.global ≡ false }
{
    Arg::new(alloc, name)
        .long(name)
        .value_name(value)
        .help(help)
}

// The command with one more such option.
fn with_text<'a>(
    alloc: Global,
    command: Command<'a>,
    name: &'a str,
    value: &'a str,
    help: &'a str,
) -> Result<Command<'a>, AllocError>
    ensures app { IfOk result (λ made. app_of made ≡ with_rule (app_of command.entry) (text_option name.entry.now)) }
    ensures local { (fields_of command.entry).has_globals ≡ false
        → IfOk result (λ made. (fields_of made).has_globals ≡ false) }
{
    command.arg(text(alloc, name, value, help))
}

fn with_words<'a>(alloc: Global, command: Command<'a>) -> Result<Command<'a>, AllocError>
    ensures app { IfOk result (λ made. app_of made ≡ with_rule (app_of command.entry) words_rule) }
    ensures local { (fields_of command.entry).has_globals ≡ false
        → IfOk result (λ made. (fields_of made).has_globals ≡ false) }
{
    let words = Arg::new(alloc, "word")
        .value_name("WORD")
        .help(WORDS)
        .action(ArgAction::Set)
        .num_args(1..);
    command.arg(words.required(true))
}

// The command before it has options.
fn named<'a>(alloc: Global) -> Command<'a>
    ensures app { app_of result ≡ call_named }
    ensures local { (fields_of result).has_globals ≡ false }
{
    Command::new(alloc, "call")
        .version(VERSION)
        .about(ABOUT)
        .after_help(AFTER)
}

// Each step owns one command: one that owns several takes a minute to prove.
fn call_command<'a>(alloc: Global) -> Result<Command<'a>, AllocError>
    ensures app { IfOk result (λ made. app_of made ≡ call_app) }
    ensures local { IfOk result (λ made. (fields_of made).has_globals ≡ false) }
{
    let read = with_text(alloc, named(alloc), "in", "FILE", READS)?;
    let written = with_text(alloc, read, "out", "FILE", WRITES)?;
    let waits = value_parser!(u16).range(0..=3600);
    let timed = with_number(alloc, written, "wait", waits, "0", WAITS)?;
    let counts = value_parser!(u16).range(1..=1000);
    let counted = with_number(alloc, timed, "times", counts, "5", REPEATS)?;
    let called = with_text(alloc, counted, "name", "NAME", NAMES)?;
    with_words(alloc, called)
}

// The program's command before it has a subcommand.
fn alone<'a>(alloc: Global) -> Command<'a>
    ensures { app_of result ≡ lattice_alone }
{
    Command::new(alloc, "lattice")
        .version(VERSION)
        .subcommand_required(true)
}

fn program<'a>(alloc: Global) -> Result<Command<'a>, AllocError>
    ensures { IfOk result (λ made. app_of made ≡ lattice_call) }
{
    let call = call_command(alloc)?;
    alone(alloc).subcommand(call)
}

// A text that may have been given.
fn text_in(alloc: Global, given: &ArgMatches<'_>, name: &str) -> Result<Option<String>, AllocError>
    ensures { IfOk result (λ text. option_map string_bytes text ≡ first_of name.now (rows_of (found_of given.now))) }
{
    match given.get_str(name) {
        Some(text) => Ok(Some(String::from_str(alloc, text)?)),
        None => Ok(None),
    }
}

// Whether the name that was given is one, where there is one.
fn is_well_named(given: &ArgMatches<'_>) -> bool
    ensures { result ≡ is_well_named (rows_of (found_of given.now)) }
{
    match given.get_str("name") {
        Some(name) => is_name(name.as_bytes()),
        None => true,
    }
}

// Puts each word behind a space.
fn put_spaced(request: &mut String, words: &[&str]) -> Result<(), AllocError>
    ensures { OnOk result (string_bytes request.new ≡ string_bytes request.old ++ spaced_words (map (λ w. w.now) words.now)) }
{
    for word in words {
        request.push(' ')?;
        request.push_str(word)?;
    }
    Ok(())
}

// The words with single spaces between them.
fn joined(alloc: Global, words: &[&str]) -> Result<String, AllocError>
    ensures { IfOk result (λ request. string_bytes request ≡ joined_words (map (λ w. w.now) words.now)) }
{
    let Some((first, rest)) = words.split_first() else {
        return Ok(String::new(alloc));
    };
    let mut request = String::from_str(alloc, first)?;
    put_spaced(&mut request, rest)?;
    Ok(request)
}

// The request that the words are, where they are one.
fn request_in(alloc: Global, given: &ArgMatches<'_>) -> Result<Option<String>, AllocError>
    requires { AreCallRows (rows_of (found_of given.now)) }
    ensures { IfOk result (λ request. SaysRequest (rows_of (found_of given.now)) (option_map string_bytes request)) }
{
    let words = given.get_strs("word").unwrap();
    let request = joined(alloc, words)?;
    if is_request(request.as_bytes()) {
        Ok(Some(request))
    } else {
        Ok(None)
    }
}

// The options, each number of which is there and in its range.
fn options_in(alloc: Global, given: &ArgMatches<'_>) -> Result<Option<CallOptions>, AllocError>
    requires { AreCallRows (rows_of (found_of given.now)) }
    ensures { IfOk result (SaysGiven (rows_of (found_of given.now))) }
{
    let wait = given.get_one::<u16>("wait").unwrap();
    let times = given.get_one::<u16>("times").unwrap();
    if !is_well_named(given) {
        return Ok(None);
    }
    let Some(request) = request_in(alloc, given)? else {
        return Ok(None);
    };
    let input = text_in(alloc, given, "in")?;
    let output = text_in(alloc, given, "out")?;
    let name = text_in(alloc, given, "name")?;
    Ok(Some(CallOptions {
        input,
        output,
        wait,
        times,
        name,
        request,
    }))
}

/// What the words of a command line of `lattice call` say, the program's name first. `None` where the request has an LF
/// or an `@`, or is empty, or where the name is none.
///
/// The options are those that were given, or their defaults, each in its range, and the request is the words with single
/// spaces between them. An error has a kind that `clap` finds in the words: they ask for help or for the version, also
/// as `help call`, or they are mistaken, as all words are that name another subcommand. Or its kind is `OutOfMemory`,
/// which comes of memory alone.
pub fn command(alloc: Global, words: &[String]) -> Result<Option<CallOptions>, Error>
    ensures ok { IfOk result (IsCallSaid (map string_bytes words.now)) }
    ensures error { IfErr result (HasKind (fault_of lattice_call (map string_bytes words.now))) }
{
    let matches = program(alloc)?.try_get_matches_from(words)?;
    match matches.subcommand() {
        Some((_, given)) => Ok(options_in(alloc, given)?),
        // `crate::proofs::OptionLines::faultless_call`: a subcommand is required.
        None => unreachable!(),
    }
}
