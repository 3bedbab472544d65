// The board with its trail.
ghost use Rattle.std.specs.Prelude.{◌≡◌, ◌≢◌, ◌<◌, [], ℕ, true};
ghost use Rattle.hb_types.specs.declared.answer.Answer.TheVariants as answer;
ghost use Rattle.hb_types.specs.Calls.{IsRequest};
ghost use Rattle.hb_runs.specs.Board.{new_board};
ghost use Rattle.hb_node.specs.Laws.{State, managing, Enters, asked_of, entry_of};
ghost use Rattle.hb_manager.specs.Managing.{Explains, IsManagers, IsSound, is_left_out};

use crate::asking::ask_twice;
use hb_board::Board;
use hb_trail::Trail;
use hb_types::{Answer, NoMemory, Request, TrailEntry};
use std::alloc::Global;

/// The manager. Its trail leaves out Ready, End, Settled and Halted, which take no memory.
#[derive(Drop)]
pub struct Manager {
    pub(crate) board: Board,
    pub(crate) trail: Trail,
    ghost sound: { ∥ IsSound board ∥₁ },
}

impl Manager {
    pub fn new(alloc: Global) -> Manager
        ensures explained { Explains result.board (managing new_board) [] }
        ensures trail { result.trail.entries ≡ [] }
    {
        Manager {
            board: Board::new(alloc),
            trail: Trail::new(alloc),
        }
    }

    /// The requests that it answered.
    pub fn entries(&self) -> &[TrailEntry]
        ensures { result.now ≡ self.now.trail.entries }
    {
        self.trail.entries()
    }

    /// A request that its trail leaves out.
    pub(crate) fn pass(&mut self, request: &Request) -> Answer
        requires well_formed { IsRequest request.now }
        requires left_out { is_left_out request.now ≡ true }
        ensures told { IsManagers result }
        ensures trail { self.new.trail ≡ self.old.trail }
        ensures law { (origin : State) → Explains self.old.board origin (asked_of self.old.trail.entries) → Explains self.new.board origin (asked_of self.new.trail.entries) }
        ensures memory { result ≢ answer.NoMemory }
    {
        self.board.ask(request)
    }

    /// A request that its trail has, at a moment. Room is taken before anything is done.
    pub(crate) fn enter(&mut self, moment: u128, request: Request) -> Answer
        requires well_formed { IsRequest request }
        ensures told { IsManagers result }
        ensures entered { Enters self.old.trail.entries self.new.trail.entries (entry_of request result moment moment) }
        ensures law { (origin : State) → Explains self.old.board origin (asked_of self.old.trail.entries) → Explains self.new.board origin (asked_of self.new.trail.entries) }
    {
        if !self.has_room() {
            return Answer::NoMemory;
        }
        match ask_twice(&mut self.board, &request) {
            Ok((answer, entered)) => {
                self.trail.push(TrailEntry {
                    caller: 0,
                    nth: 0,
                    request,
                    answer: entered,
                    from: moment,
                    to: moment,
                });
                answer
            }
            Err(NoMemory) => Answer::NoMemory,
        }
    }

    /// Whether there is room for an entry, which is taken where there is none.
    fn has_room(&mut self) -> bool
        ensures board { self.new.board ≡ self.old.board }
        ensures entries { self.new.trail.entries ≡ self.old.trail.entries }
        ensures room { result ≡ true → 0 < self.new.trail.spare }
    {
        self.trail.spare() > 0 || self.trail.room(1).is_ok()
    }
}
