// The writes of a statement, and its reply.
ghost use Rattle.std.specs.Prelude.{◌≡◌, ◌≤◌, true};
ghost use Rattle.std.specs.Vec.Iter.{into_iter_items};
ghost use Rattle.hb_types.specs.Lists.{Each};
ghost use Rattle.hb_types.specs.Numbers.{IsNumber};
ghost use Rattle.hb_types.specs.Places.{node_of_area};
ghost use Rattle.hb_access.specs.Accesses.{use_of, written, used_after, at_branch, keeps_nodes, AsksSoundly, is_asking as access_asking, now_talks as access_talks};
ghost use Rattle.hb_writes.specs.Underway.{IsWrite};
ghost use Rattle.hb_writes.specs.Writings.{is_asking, is_waiting, rolls, replying, using, Begins, Goes, Hears, NextIs, Starts};

use crate::counting::counted;
use hb_access::{Access, Next, Usage};
use hb_model::Reply;
use hb_types::{Answer, Change, NodeName};
use std::alloc::Global;
use std::marker::Model;
use std::vec::IntoIter;

/// The node of an area.
pub fn node_of(area: u16) -> NodeName
    requires { node_of_area area ≤ 10 }
    ensures { result.0 ≡ node_of_area area }
{
    if area == 0 {
        NodeName(1)
    } else {
        NodeName((area / 256 + 1) as u8)
    }
}

/// How the writes of a statement begin.
#[derive(Drop)]
pub enum Begun {
    Writing(Writing),
    /// There is nothing to be written.
    Replied(Reply, Usage),
    Refused(Reply, Usage),
}

/// What an answer made of the writes.
#[derive(Drop)]
pub enum Taken {
    /// There is more to be asked.
    More,
    Replied(Reply),
    Refused(Reply),
}

/// The writes of a statement, one after another, and its reply.
pub struct Writing {
    access: Access,
    left: IntoIter<Change, Global>,
    reply: Reply,
}

impl Drop for Writing {
    fn drop(self) {
        let Writing {
            access: _,
            left: _,
            reply: _,
        } = self;
    }
}

impl Model for Writing {
    ghost use Rattle.std.specs.Vec.Iter.{into_iter_items};
    ghost use Rattle.hb_types.specs.Lists.{Each};
    ghost use Rattle.hb_writes.specs.Underway.{IsWrite, Underway};

    ghost Value = { Underway };

    ghost view = { λ w. record { access = w.access; left = into_iter_items w.left; reply = w.reply } };

    ghost invariant = { λ w. Each IsWrite (into_iter_items w.left) };
}

// The write of a change.
fn write_of(usage: Usage, change: Change) -> Access
    requires { IsWrite change }
    ensures usage { result.usage ≡ usage }
    ensures asking { access_asking result.stage ≡ true }
    ensures talk { access_talks result ≡ written (node_of_area change.place.space.area) change (use_of usage) }
{
    let node = node_of(change.place.space.area);
    Access::write(usage, node, change)
}

impl Writing {
    /// Counts the changes, and asks for nothing yet.
    pub fn begin(usage: Usage, changes: Vec<Change>, reply: Reply) -> Begun
        requires { Each IsWrite changes.items }
        ensures { Begins usage changes.items reply result }
    {
        match counted(usage, changes.as_slice()) {
            Some(usage) => Writing::start(usage, changes.into_iter(), reply),
            None => Begun::Refused(Reply::TooMuch, usage),
        }
    }

    fn start(usage: Usage, left: IntoIter<Change, Global>, reply: Reply) -> Begun
        requires { Each IsWrite (into_iter_items left) }
        ensures { Starts usage (into_iter_items left) reply result }
    {
        let mut left = left;
        match left.next() {
            Some(change) => {
                let access = write_of(usage, change);
                Begun::Writing(Writing {
                    access,
                    left,
                    reply,
                })
            }
            None => Begun::Replied(reply, usage),
        }
    }

    /// What the transaction has used.
    pub fn usage(&self) -> Usage
        ensures { result ≡ self.now.access.usage }
    {
        self.access.usage()
    }

    /// What is asked next; it is the caller's to ask it.
    pub fn next(&mut self) -> Next
        requires { is_asking self.old ≡ true }
        ensures next { NextIs self.old self.new result }
        ensures tx { self.new.access.usage.tx.0 ≡ self.old.access.usage.tx.0 }
        ensures used { self.new.access.usage.used.0 ≡ used_after self.old.access.usage.used.0 result }
        ensures branch { at_branch self.old.access.usage result ≡ true }
        ensures sound { IsNumber self.old.access.usage.tx.0 → AsksSoundly result }
    {
        self.access.next()
    }

    /// Takes the answer to what was asked.
    pub fn take(&mut self, answer: Answer) -> Taken
        requires { is_waiting self.old ≡ true }
        ensures hears { Hears self.old self.new answer result }
        ensures tx { self.new.access.usage.tx.0 ≡ self.old.access.usage.tx.0 }
        ensures used { keeps_nodes self.old.access.usage.used.0 self.new.access.usage.used.0 (rolls result) ≡ true }
    {
        match self.access.take(answer) {
            hb_access::Taken::More => Taken::More,
            hb_access::Taken::Came(_) => self.go_on(),
            hb_access::Taken::Refused(reply) => Taken::Refused(reply),
        }
    }

    // Goes on behind a write that was done.
    fn go_on(&mut self) -> Taken
        ensures goes { Goes (replying self.old.left self.old.reply (using self.old)) self.new result }
        ensures tx { self.new.access.usage.tx.0 ≡ self.old.access.usage.tx.0 }
        ensures used { self.new.access.usage.used.0 ≡ self.old.access.usage.used.0 }
    {
        match self.left.next() {
            Some(change) => {
                self.access = write_of(self.access.usage(), change);
                Taken::More
            }
            None => Taken::Replied(std::mem::replace(&mut self.reply, Reply::NoMemory)),
        }
    }
}
