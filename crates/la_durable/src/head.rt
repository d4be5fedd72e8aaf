// The head of a node's journal.
ghost use Rattle.std.specs.Prelude.{◌≡◌, ◌++◌, IfOk, OnOk};
ghost use Rattle.std.specs.Fmt.{decimal};
ghost use Rattle.la_proposer.specs.Majority.{votes_of};
ghost use Rattle.la_script.specs.Text.{spaced_text};
ghost use Rattle.la_durable.specs.Heads.{node_head};

use itoa::Buffer;
use la_node::Node;
use la_object::Counter;
use la_proposer::Votes;
use std::alloc::{AllocError, Global};

// Writes a number behind a word.
fn put_number(text: &mut Vec<u8>, word: &[u8], number: u64) -> Result<(), AllocError>
    ensures { OnOk result (text.new.items ≡ text.old.items ++ (word.now ++ decimal number)) }
{
    text.extend_from_slice(word)?;
    text.extend_from_slice(Buffer::new().format(number).as_bytes())
}

// Writes the votes, each behind a space.
fn put_votes(text: &mut Vec<u8>, votes: &Votes) -> Result<(), AllocError>
    ensures { OnOk result (text.new.items ≡ text.old.items ++ spaced_text (votes_of votes.now)) }
{
    for replica in 0..votes.len() {
        let Some(count) = votes.of(replica as u8) else {
            unreachable!()
        };
        put_number(text, b" ", u64::from(count))?;
    }
    Ok(())
}

/// The head of a node's journal, without a line's end.
pub(crate) fn head_of(alloc: Global, node: &Node<Counter>) -> Result<Vec<u8>, AllocError>
    ensures { IfOk result (λ text. text.items ≡ node_head node.now.replica) }
{
    let mut text = b"lattice 2".to_vec(alloc)?;
    put_number(&mut text, b" replica ", u64::from(node.own()))?;
    put_number(&mut text, b" of ", u64::from(node.replicas()))?;
    text.extend_from_slice(b" votes")?;
    put_votes(&mut text, &node.votes())?;
    put_number(&mut text, b" commits ", u64::from(node.commits()))?;
    put_number(&mut text, b" cap ", u64::from(node.cap()))?;
    Ok(text)
}
