// The lines before the events.
ghost use Rattle.std.specs.Prelude.{◌≡◌, ◌≤◌, length, option_map, IfOk, IfSome, IsSome};
ghost use Rattle.la_proposer.specs.Majority.{votes_of};
ghost use Rattle.la_node.specs.Configs.{IsConfig};
ghost use Rattle.la_script.specs.Words.{bytes_of, each_word};
ghost use Rattle.la_script.specs.Headers.{version_of, header_of, vote_word, votes_said};
ghost use Rattle.la_script.specs.Values.{header_group};

use crate::Version;
use crate::forms::{Keyword, fits, header};
use crate::lines::words_of;
use crate::numbers::number;
use crate::values::Values;
use la_node::Config;
use la_proposer::{MAX_VOTES, Votes};
use std::alloc::{AllocError, Global};

/// The version that a first line says, or `None` where it says none.
pub fn version_of(line: &[u8]) -> Option<Version>
    ensures exact { result ≡ version_of line.now }
    ensures len { IsSome result → length line.now ≡ 9 }
{
    if line == Version::One.line().as_bytes() {
        return Some(Version::One);
    }
    if line == Version::Two.line().as_bytes() {
        return Some(Version::Two);
    }
    None
}

/// The group that a header's line says, or `None` where it is no header.
pub fn header_of(alloc: Global, line: &[u8]) -> Result<Option<Config>, AllocError>
    ensures exact { IfOk result (λ config. option_map header_group config ≡ header_of line.now) }
    ensures config { IfOk result (λ config. IfSome config IsConfig) }
{
    let words = words_of(alloc, line)?;
    if !fits(header(), &words) {
        return Ok(None);
    }
    let Some(values) = Values::read(alloc, header(), &words)? else {
        return Ok(None);
    };
    Ok(Some(values.config()))
}

// The votes that the words say, or `None` where a word says none.
fn votes_of(alloc: Global, words: &[&[u8]]) -> Result<Option<Votes>, AllocError>
    requires some { 1 ≤ length words.now }
    requires few { length words.now ≤ 8 }
    ensures exact { IfOk result (λ votes. option_map votes_of votes
        ≡ each_word vote_word (bytes_of words.now)) }
    ensures len { IfOk result (λ votes. IfSome votes (λ v. length (votes_of v) ≡ length words.now)) }
{
    let mut votes = Vec::new(alloc);
    for word in words {
        let Some(count) = number(1, u64::from(MAX_VOTES), word) else {
            return Ok(None);
        };
        votes.push(count as u16)?;
    }
    match Votes::new(&votes) {
        Ok(votes) => Ok(Some(votes)),
        Err(_) => unreachable!(),
    }
}

/// The votes that a line says, of a group of so many replicas, or `None` where it says none.
pub fn votes_said(alloc: Global, replicas: u8, line: &[u8]) -> Result<Option<Votes>, AllocError>
    requires some { 1 ≤ replicas }
    requires few { replicas ≤ 8 }
    ensures exact { IfOk result (λ votes. option_map votes_of votes ≡ votes_said replicas line.now) }
    ensures len { IfOk result (λ votes. IfSome votes (λ v. length (votes_of v) ≡ replicas)) }
{
    let words = words_of(alloc, line)?;
    let [first, votes @ ..] = words.as_slice() else {
        return Ok(None);
    };
    if *first != Keyword::Votes.spelling() || votes.len() != replicas as usize {
        return Ok(None);
    }
    votes_of(alloc, votes)
}
