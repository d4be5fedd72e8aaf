// What objects answered.
ghost use Rattle.std.specs.Prelude.{◌≡◌, OnOk};
ghost use Rattle.la_script.specs.Text.{items_text, yes_text, answer_text};
ghost use Rattle.la_script.specs.Pieces.{AddsText};

use crate::Pieces;
use la_object::Answer;
use std::alloc::AllocError;

// Writes elements, with single spaces between them.
fn put_items(out: &mut Pieces, items: &[u64]) -> Result<(), AllocError>
    ensures { OnOk result (AddsText out.old out.new (items_text items.now)) }
{
    let [first, others @ ..] = items else {
        return Ok(());
    };
    out.push_number(*first)?;
    for item in others {
        out.push_ascii(b' ')?;
        out.push_number(*item)?;
    }
    Ok(())
}

fn put_yes(out: &mut Pieces, is: bool) -> Result<(), AllocError>
    ensures { OnOk result (AddsText out.old out.new (yes_text is)) }
{
    out.push_str(if is { "yes" } else { "no" })
}

/// Adds what an object answered, as a report has it.
pub fn put_answer(out: &mut Pieces, answer: &Answer) -> Result<(), AllocError>
    ensures { OnOk result (AddsText out.old out.new (answer_text answer.now)) }
{
    match answer {
        Answer::Total(total) => {
            out.push_str("total ")?;
            out.push_signed(*total)
        }
        Answer::Reached(reached) => {
            out.push_str("reached ")?;
            put_yes(out, *reached)
        }
        Answer::Largest(value) => {
            out.push_str("largest ")?;
            out.push_number(*value)
        }
        Answer::Has(has) => {
            out.push_str("has ")?;
            put_yes(out, *has)
        }
        Answer::Size(size) => {
            out.push_str("size ")?;
            out.push_number(*size)
        }
        Answer::Items(items) => {
            out.push_str("items [")?;
            put_items(out, items.all())?;
            out.push_ascii(b']')
        }
        Answer::Foreign => out.push_str("foreign"),
    }
}
