// What a node sends and takes.
ghost use Rattle.std.specs.Prelude.{◌≡◌, ◌≢◌, ◌⊎◌, List, Some, None, IfOk, IfSome, OnErr, option_map, slice_get};
ghost use Rattle.la_embed.specs.Hosts.{HostState, IsPostedAgain, with_noted};
ghost use Rattle.la_embed.specs.Journals.{AllIsKept};
ghost use Rattle.la_embed.specs.Outgoing.{receiver, outgoing_text};
ghost use Rattle.la_embed.specs.Receiving.{TakesHostLine, IsLineRefusal};
ghost use Rattle.lattice_c.specs.Calls.{AreBrought, HandsMail};
ghost use Rattle.lattice_c.specs.Statuses.{EndsSo, status_of_host};

use crate::handle::Handle;
use crate::status::{MEMORY, NONE, OK, SMALL, UNKEPT, status_of_host};
use la_embed::Embedded;
use std::alloc::AllocError;

/// Takes the line of a message of another node, without its end, honest or not. What is to be sent then waits: of a
/// message without news, or that stands on updates which this node does not have, how far this node is.
///
/// `TOO_LONG`, `BAD_LINE` and `BAD_NUMBER` come where the bytes are no line of a message, `NO_MESSAGE` where it is what a
/// client asks, `ELSEWHERE` where it is for another node or group; any other where the node refuses it, as no honest
/// message is refused, and `MEMORY`.
#[unsafe(no_mangle)]
pub extern "C" fn lattice_receive(handle: &mut Handle, bytes: &[u8]) -> u8
    ensures { EndsSo (TakesHostLine handle.old.host.host bytes.now handle.new.host.host)
        (IsLineRefusal handle.old.host.host bytes.now) status_of_host result }
{
    match handle.inner().host.receive(bytes) {
        Ok(()) => OK,
        Err(refused) => status_of_host(refused),
    }
}

/// What waits for an answer is put behind what is to be sent once more, but for what others are known to have. By a
/// timer, at each node: one call may not do. Where all is known, it sends nothing.
#[unsafe(no_mangle)]
pub extern "C" fn lattice_again(handle: &mut Handle) -> u8
    ensures again { ((result ≡ 0)
        × IsPostedAgain handle.old.host.host handle.new.host.host.mail handle.new.host.host.links)
        ⊎ ((result ≡ 1) × (handle.new.host.host ≡ handle.old.host.host)) }
    ensures same { handle.new.host.host
        ≡ with_noted handle.old.host.host handle.new.host.host.mail handle.new.host.host.links }
{
    match handle.inner().host.again() {
        Ok(()) => OK,
        Err(_) => MEMORY,
    }
}

// How many letters to itself a node takes at most before others are handed over.
const MOST_OWN: u32 = 1_000;

// Takes what waits first, as long as it is for this node itself.
pub(crate) fn settle(inner: &mut Embedded)
    ensures { (states : List HostState) × AreBrought states inner.old.host inner.new.host }
{
    for _round in 0..MOST_OWN {
        if !inner.host.bring_own() {
            return;
        }
    }
}

// Puts the line of what is to be sent next where it is handed over from: to whom that goes.
fn next_line(inner: &mut Embedded) -> Result<Option<u8>, AllocError>
    requires { AllIsKept inner.old.host.journal }
    ensures to { IfOk result (λ to. to ≡ option_map receiver (slice_get inner.old.host.mail 0)) }
    ensures line { IfOk result (λ _. option_map (λ _. inner.new.line.items) (slice_get inner.old.host.mail 0)
        ≡ option_map outgoing_text (slice_get inner.old.host.mail 0)) }
    ensures some { OnErr result (slice_get inner.old.host.mail 0 ≢ None) }
    ensures same { inner.new.host ≡ inner.old.host }
{
    inner.line.clear();
    match inner.host.next_mail() {
        Some(outgoing) => {
            outgoing.put(&mut inner.line)?;
            Ok(Some(outgoing.to()))
        }
        None => Ok(None),
    }
}

/// The line of what is to be sent next, into a buffer: to whom it goes, and how many bytes it has. It is then no longer
/// there: whoever loses it, loses a message. What is for the node itself is taken in before.
///
/// `NONE` comes where nothing is to be sent; `SMALL` where the buffer has less room than the line has bytes, which are
/// told, and the line stays; `MEMORY`, and it stays; `UNKEPT` where what the node took is not on the disk yet.
#[unsafe(no_mangle)]
pub extern "C" fn lattice_next_mail(
    handle: &mut Handle,
    to: &mut u8,
    buffer: &mut [u8],
    len: &mut usize,
) -> u8
    ensures { HandsMail handle.old.host.host buffer.old result to.new len.new buffer.new handle.new.host.host }
{
    let inner = handle.inner();
    settle(inner);
    if !inner.host.is_kept() {
        return UNKEPT;
    }
    let replica = match next_line(inner) {
        Ok(Some(replica)) => replica,
        Ok(None) => return NONE,
        Err(_) => return MEMORY,
    };
    let line = inner.line.as_slice();
    let count = line.len();
    *len = count;
    if count > buffer.len() {
        return SMALL;
    }
    buffer[..count].copy_from_slice(line);
    *to = replica;
    inner.host.sent();
    OK
}
