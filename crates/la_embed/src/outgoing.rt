ghost use Rattle.std.specs.Prelude.{◌≡◌, ◌++◌, OnOk};
ghost use Rattle.la_embed.specs.Outgoing.{IsTypedOutgoing, receiver, outgoing_text};

use la_node::{Letter, Standing};
use la_wire::{put_known_line, put_letter};
use std::alloc::AllocError;

/// What a host has to send.
#[derive(Drop)]
pub enum Outgoing {
    /// A message of the node.
    Letter(Letter),
    /// How far the node is, for one whose message told it nothing new.
    Standing(Standing),
}

impl Outgoing {
    /// The number of the replica that it is for.
    pub fn to(&self) -> u8
        ensures { result ≡ receiver self.now }
    {
        match self {
            Outgoing::Letter(letter) => letter.parcel.to,
            Outgoing::Standing(standing) => standing.to,
        }
    }

    /// Puts its line behind what is there, without a line's end, at a cost linear in it. After a refusal
    /// a part of it may stand there. A letter that was put is in the ranges of its types.
    pub fn put(&self, out: &mut Vec<u8>) -> Result<(), AllocError>
        ensures exact { OnOk result (out.new.items ≡ out.old.items ++ outgoing_text self.now) }
        ensures typed { OnOk result (IsTypedOutgoing self.now) }
    {
        match self {
            Outgoing::Letter(letter) => put_letter(out, letter),
            Outgoing::Standing(standing) => {
                put_known_line(out, standing)?;
                // without the line's end
                let _end = out.pop();
                Ok(())
            }
        }
    }
}
