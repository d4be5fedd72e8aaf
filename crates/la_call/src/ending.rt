// How a call ends without an answer.
ghost use Rattle.std.specs.Prelude.{◌≡◌, Some, None, IfOk, option_map};
ghost use Rattle.la_call.specs.Ends.{call_status, call_name, call_fault_line, path_of, TellsCallFault};

use crate::{CallFault, CallOptions};
use la_io::{Listener, tell_all};
use std::alloc::{AllocError, Global};

// The exit status after a fault.
fn status_of(fault: CallFault) -> u8
    ensures { result ≡ call_status fault }
{
    match fault {
        CallFault::BadConfig => 2,
        CallFault::Memory => 3,
        CallFault::ReadFault | CallFault::WriteFault => 4,
        CallFault::NoAnswer => 6,
    }
}

fn name_of(fault: CallFault) -> &'static str
    ensures { result.now ≡ call_name fault }
{
    match fault {
        CallFault::ReadFault => "ReadFault",
        CallFault::WriteFault => "WriteFault",
        CallFault::Memory => "Memory",
        CallFault::BadConfig => "BadConfig",
        CallFault::NoAnswer => "NoAnswer",
    }
}

// The line that tells of a fault without a file.
fn short_line(fault: CallFault) -> &'static [u8]
    ensures { result.now ≡ call_fault_line fault None }
{
    match fault {
        CallFault::ReadFault => b"lattice call: ReadFault\n",
        CallFault::WriteFault => b"lattice call: WriteFault\n",
        CallFault::Memory => b"lattice call: Memory\n",
        CallFault::BadConfig => b"lattice call: BadConfig\n",
        CallFault::NoAnswer => b"lattice call: NoAnswer\n",
    }
}

// And of a fault of a file.
fn file_line(alloc: Global, fault: CallFault, path: &str) -> Result<Vec<u8>, AllocError>
    ensures { IfOk result (λ line. line.items ≡ call_fault_line fault (Some path.now)) }
{
    let mut line = Vec::new(alloc);
    line.extend_from_slice(b"lattice call: ")?;
    line.extend_from_slice(name_of(fault).as_bytes())?;
    line.extend_from_slice(b": ")?;
    line.extend_from_slice(path.as_bytes())?;
    line.push(b'\n')?;
    Ok(line)
}

// Tells of a fault of a file: without it, where there is no memory for that.
fn tell_file<E: Listener>(alloc: Global, fault: CallFault, path: &str, errors: &mut E)
    ensures { TellsCallFault E.contents E.refuses errors.old errors.new fault (Some path.now) }
{
    let _ = match file_line(alloc, fault, path) {
        Ok(line) => tell_all(errors, &line),
        Err(_) => tell_all(errors, short_line(fault)),
    };
}

// Tells of a fault, and of its file, where it has one.
fn tell<E: Listener>(alloc: Global, fault: CallFault, path: Option<&str>, errors: &mut E)
    ensures { TellsCallFault E.contents E.refuses errors.old errors.new fault (option_map (λ p. p.now) path.entry) }
{
    match path {
        Some(path) => tell_file(alloc, fault, path, errors),
        None => {
            let _ = tell_all(errors, short_line(fault));
        }
    }
}

/// The exit status after a fault, which is told behind `lattice call: `, and behind it the file that it is of, where one
/// is. Where there is no memory for the file's name, that is left out.
pub fn end_with<E: Listener>(
    alloc: Global,
    fault: CallFault,
    path: Option<&str>,
    errors: &mut E,
) -> u8
    ensures status { result ≡ call_status fault }
    ensures told { TellsCallFault E.contents E.refuses errors.old errors.new fault (option_map (λ p. p.now) path.entry) }
{
    tell(alloc, fault, path, errors);
    status_of(fault)
}

// The file that a fault is of, where it is no standard stream.
pub(crate) fn path_of(options: &CallOptions, fault: CallFault) -> Option<&str>
    ensures { option_map (λ p. p.now) result ≡ path_of options.now fault }
{
    match fault {
        CallFault::ReadFault => options.input.as_deref(),
        CallFault::WriteFault => options.output.as_deref(),
        CallFault::Memory | CallFault::BadConfig | CallFault::NoAnswer => None,
    }
}
