// The votes of a transaction's nodes.
ghost use Rattle.std.specs.Prelude.{◌≡◌, ◌<◌, ◌-◌, [], ◌∷◌, ◌++◌, IfOk};

use hb_types::{NoMemory, Vote};
use sqlite_items::Items;
use std::alloc::Global;
use std::marker::Model;

/// Votes, and how many more there is room for.
#[derive(Drop)]
pub struct Ballot {
    alloc: Global,
    list: Vec<Vote>,
    room: usize,
}

impl Model for Ballot {
    ghost use Rattle.std.specs.Prelude.{◌≤◌, ◌+◌, vec_len, vec_capacity};
    ghost use Rattle.hb_commit.specs.Ballots.{Votes};

    ghost Value = { Votes };

    ghost view = { λ b. record { votes = b.list.items; spare = b.room } };

    ghost invariant = { λ b. vec_len b.list + b.room ≤ vec_capacity b.list };
}

impl Ballot {
    /// A ballot that never has a vote.
    pub fn none(alloc: Global) -> Ballot
        ensures { result ≡ record { votes = []; spare = 0 } }
    {
        Ballot {
            alloc,
            list: Vec::new(alloc),
            room: 0,
        }
    }

    /// Room for the votes of all nodes.
    pub fn new(alloc: Global) -> Result<Ballot, NoMemory>
        ensures { IfOk result (λ b. b ≡ record { votes = []; spare = 11 }) }
    {
        let mut list = Vec::new(alloc);
        list.reserve(11)?;
        Ok(Ballot {
            alloc,
            list,
            room: 11,
        })
    }

    pub fn push(&mut self, vote: Vote)
        requires { 0 < self.old.spare }
        ensures { self.new ≡ record { votes = self.old.votes ++ vote ∷ []; spare = self.old.spare - 1 } }
    {
        let _ = self.list.push(vote);
        self.room -= 1;
    }

    /// Gives the votes away.
    pub fn give(&mut self) -> Items<Vote>
        ensures votes { result ≡ self.old.votes }
        ensures none { self.new ≡ record { votes = []; spare = 0 } }
    {
        let given = std::mem::replace(self, Ballot::none(self.alloc));
        Items::from_vec(given.list)
    }
}
