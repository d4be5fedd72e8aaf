ghost use Rattle.std.specs.Prelude.{◌↔◌, IsTrue};
ghost use Rattle.la_node.specs.Configs.{IsConfig};

use la_commit::MAX_COMMITS;
use la_proposer::Votes;

/// Of what group a node is, or a world.
#[derive(Clone, Copy)]
pub struct Config {
    /// How many replicas the group has: 1 to 8.
    pub replicas: u8,
    /// How many adopt-commit objects it has, with two instances each: 0 to 16.
    pub commits: u8,
    /// How many updates each replica may submit in instance 0: 1 to 1,000,000.
    pub cap: u32,
    /// The votes of each replica, for as many as the group has.
    pub votes: Votes,
}

impl Config {
    /// Whether every value is in its range, and there are votes for so many replicas.
    pub fn is_group(&self) -> bool
        ensures { IsTrue result ↔ IsConfig self.now }
    {
        self.votes.is_group_of(self.replicas, self.cap) && self.commits <= MAX_COMMITS
    }
}
