// The public calls of a line of pdrbal.
ghost use Rattle.std.specs.Prelude.{◌≡◌, true, false};
ghost use Rattle.hb_node.specs.Lists.{Onward};
ghost use Rattle.hb_mover.specs.Moving.{begun_by, in_transaction as has_transaction, is_ending, is_going, is_waiting, IsNew};
ghost use Rattle.hb_mover.specs.Steps.{EndsOn, GivesUp, SameLine, Stepped};

use hb_batch::Hint;
use hb_model::Reply;
use hb_node::Nodes;
use hb_turn::{Line, Turn, Went};
use hb_types::{Edge, Text};
use sqlite_items::Items;
use std::alloc::Global;
use std::marker::Model;

/// What a step showed.
#[derive(Drop)]
pub enum Progress {
    More,
    /// The turn waits for these from now on.
    Waits(Items<Edge>),
    /// A line that ends nothing.
    Told(Reply),
    /// The line's last reply.
    Ended(Reply),
}

/// A line of pdrbal of a session.
pub struct Mover {
    pub(crate) turn: Turn,
    /// The turns that may still be begun.
    pub(crate) left: u32,
    /// The groups that the last check found.
    pub(crate) hints: Items<Hint>,
    /// Where among these the group of the next turn stands.
    pub(crate) at: usize,
}

impl Drop for Mover {
    fn drop(self) {
        let Mover {
            turn: _,
            left: _,
            hints: _,
            at: _,
        } = self;
    }
}

impl Model for Mover {
    ghost use Rattle.std.specs.Prelude.{drop};
    ghost use Rattle.hb_mover.specs.Moving.{Moving, IsKept};

    ghost Value = { Moving };

    ghost view = { λ m. record { turn = m.turn; left = m.left; hints = drop m.at m.hints } };

    ghost invariant = { λ m. IsKept m.turn (drop m.at m.hints) };
}

impl Mover {
    /// A line of a session that has begun so many transactions, with so many keys a batch and so many turns.
    pub fn new(
        alloc: Global,
        index: u8,
        back_ends: u8,
        begun: u64,
        table: Text,
        rows: u32,
        turns: u32,
    ) -> Mover
        ensures new { IsNew result index back_ends begun table rows turns }
    {
        let line = Line {
            session: index,
            back_ends,
            table,
            rows,
            turns,
        };
        Mover {
            turn: Turn::new(alloc, line, begun),
            left: turns,
            hints: Items::new(alloc),
            at: 0,
        }
    }

    /// Asks one request.
    pub fn step<N: Nodes>(&mut self, nodes: &mut N) -> Progress
        requires going { is_going self.old ≡ true }
        ensures stepped { Stepped self.old self.new (N.lists nodes.old) (N.lists nodes.new) result }
        ensures ending { is_ending self.old ≡ true → EndsOn result self.new }
        ensures goes { Onward N.goes nodes.old nodes.new }
    {
        match self.turn.step(nodes) {
            Went::More => Progress::More,
            Went::Waits(edges) => Progress::Waits(edges),
            Went::Said(turned) => self.follow(turned),
        }
    }

    /// Gives up a turn that waits: what follows is a rolling back, and the line ends.
    pub fn abandon(&mut self)
        requires waits { is_waiting self.old ≡ true }
        ensures same { SameLine self.old self.new }
        ensures begun { begun_by self.new ≡ begun_by self.old }
        ensures going { is_going self.new ≡ true }
        ensures waits { is_waiting self.new ≡ false }
        ensures ending { is_ending self.new ≡ true }
        ensures abandons { GivesUp self.old self.new }
    {
        self.turn.abandon();
    }

    /// Whether a turn waits for a lock.
    pub fn waiting(&self) -> bool
        ensures { result ≡ is_waiting self.now }
    {
        self.turn.waiting()
    }

    /// Whether a transaction was begun and hasn't ended.
    pub fn in_transaction(&self) -> bool
        ensures { result ≡ has_transaction self.now }
    {
        self.turn.in_transaction()
    }

    /// The transactions that the session has begun, with those of this line.
    pub fn begun(&self) -> u64
        ensures { result ≡ begun_by self.now }
    {
        self.turn.begun()
    }
}
