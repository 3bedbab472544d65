// The sessions' names.
ghost use Rattle.std.specs.Prelude.{◌≡◌, ◌++◌, ◌∷◌, [], ℕ, Some, None, IfOk, OnErr, IfSome, IfNone, length, vec_len, vec_capacity, IsTrue, ◌↔◌, ◌<◌};
ghost use Rattle.hb_node.specs.Lists.{Lists};
ghost use Rattle.hb_stepper.specs.Adding.{Adds};
ghost use Rattle.hb_stepper.specs.Names.{IsPlaceOf, IsNew, IsFresh, Seated, IsAdded, Named};
ghost use Rattle.hb_stepper.specs.Running.{running};

use crate::counts::BackEnds;
use crate::seat::Seat;
use crate::sessions::Sessions;
use hb_caller::Caller;
use hb_types::{NoMemory, Text};
use std::alloc::Global;

/// How many sessions a run has at most.
const MOST: usize = 16;

fn is_same(name: &Text, other: &Text) -> bool
    ensures { IsTrue result ↔ (name.now ≡ other.now) }
{
    name.as_slice() == other.as_slice()
}

/// The place of a name.
fn find(names: &[Text], name: &Text) -> Option<usize>
    ensures found { IfSome result (λ place. IsPlaceOf names.now name.now place) }
    ensures none { IfNone result (IsNew names.now name.now) }
{
    for (place, other) in names.iter().enumerate() {
        if is_same(other, name) {
            return Some(place);
        }
    }
    None
}

impl Sessions {
    /// The place of a name. A new one is put behind the others.
    pub fn place_of(&mut self, name: &Text) -> Result<usize, NoMemory>
        ensures named { IfOk result (λ place. (lists : Lists) → Named (running self.old lists) name.now place (running self.new lists)) }
        ensures none { OnErr result ((lists : Lists) → running self.new lists ≡ running self.old lists) }
        ensures adds { Adds self.old.lines.items self.new.lines.items }
        ensures names { Adds self.old.names.items self.new.names.items }
    {
        match find(self.names.as_slice(), name) {
            Some(place) => Ok(place),
            None => {
                let place = self.add(name)?;
                Ok(place)
            }
        }
    }

    fn add(&mut self, name: &Text) -> Result<usize, NoMemory>
        requires { IsNew self.old.names.items name.now }
        ensures added { IfOk result (λ place. (lists : Lists) → IsAdded (running self.old lists) name.now place (running self.new lists)) }
        ensures none { OnErr result ((lists : Lists) → running self.new lists ≡ running self.old lists) }
    {
        let name = name.copy(self.alloc)?;
        self.names.reserve(1)?;
        self.seats.reserve(1)?;
        let place = self.names.len();
        self.add_seat();
        self.names.push_reserved(name);
        Ok(place)
    }

    /// Puts a new session behind the others, while there are fewer than 16.
    fn add_seat(&mut self)
        requires { vec_len self.old.seats < vec_capacity self.old.seats }
        ensures seats { Seated self.old.seats.items self.new.seats.items }
        ensures names { self.new.names ≡ self.old.names }
        ensures waiters { self.new.waiters ≡ self.old.waiters }
        ensures lines { self.new.lines ≡ self.old.lines }
    {
        let place = self.seats.len();
        if place < MOST {
            let seat = new_seat(self.alloc, place, self.back_ends);
            self.seats.push_reserved(seat);
        }
    }
}

fn new_seat(alloc: Global, place: usize, back_ends: BackEnds) -> Seat
    requires { place < 16 }
    ensures { IsFresh place result }
{
    Seat {
        caller: Caller::new(alloc, place as u8, back_ends.get()),
        work: None,
        held: false,
    }
}
