//! What holds of the numbers that the program is made with, of its shelves, of the words that it is
//! called by, and of what it prints.
ghost use Rattle.std.specs.Prelude.{◌≡◌, List, codes};
ghost use Rattle.clap.specs.Words.{Row, Text};
ghost use Rattle.la_cli.specs.Calls.{Calls, NamesCommand};
ghost use Rattle.la_cli.specs.Play.{FitAnyGroup, TextsKeepPromises};
ghost use Rattle.la_cli.specs.Shelves.{standard_shelves};
ghost use Rattle.la_cli.specs.declared.call.Task.{Task};

use la_io::LIMIT;
use la_world::laws;

/// An input may have 16,777,216 bytes.
pub fn the_limit_is_a_number()
    ensures { LIMIT ≡ 16777216 }
{}

/// The words of a command line call for one task at most.
#[tactic(auto, using(crate::proofs::CommandLines::one_task))]
pub fn words_call_for_one_task()
    ensures { (words : List Text) (a b : Task) → Calls words a → Calls words b → a ≡ b }
{}

/// Words that name a node call for no task, so [`command`] answers an error for them.
///
/// [`command`]: crate::command
#[tactic(auto, using(crate::proofs::CommandLines::node_is_no_task))]
pub fn a_node_is_no_task()
    ensures { (words : List Text) (rows : List Row) (task : Task) → NamesCommand words (codes "node") rows
        → Calls words task → ⊥ }
{}

/// The program's own shelves fit any group: there are eight, and none has absorbed anything. So the
/// fault `BadConfig`, which comes only of shelves that do not, never comes of [`run_boxed`].
///
/// [`run_boxed`]: crate::run_boxed
pub fn the_shelves_fit_any_group()
    ensures { FitAnyGroup standard_shelves }
{}

/// The text that is written for a script, by [`answer_to`], [`play_stream`] or [`run_boxed`], is that of
/// a report which keeps all that [`la_world::run`] promises of its lines, views, answers and outcomes.
///
/// [`answer_to`]: crate::answer_to
/// [`play_stream`]: crate::play_stream
/// [`run_boxed`]: crate::run_boxed
pub fn texts_keep_promises()
    ensures { TextsKeepPromises }
{
    laws::reports_keep_promises();
}
