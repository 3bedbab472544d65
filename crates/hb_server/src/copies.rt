// An answer for the trail and one for the caller.
ghost use Rattle.std.specs.Prelude.{◌≡◌, true, IfSome, None};
ghost use Rattle.hb_server.specs.Law.{IsTold, is_heavy};

use hb_types::{Answer, NoMemory};
use std::alloc::Global;

/// A copy of an answer that has no memory of its own.
fn plain(answer: &Answer) -> Option<Answer>
    ensures some { IfSome result (λ a. a ≡ answer.now) }
    ensures none { result ≡ None → is_heavy answer.now ≡ true }
{
    match answer {
        Answer::Begun(tx) => Some(Answer::Begun(*tx)),
        Answer::Decided(number) => Some(Answer::Decided(*number)),
        Answer::Active => Some(Answer::Active),
        Answer::Aborted => Some(Answer::Aborted),
        Answer::Done => Some(Answer::Done),
        Answer::Vote { floor } => Some(Answer::Vote { floor: *floor }),
        Answer::Low { floor } => Some(Answer::Low { floor: *floor }),
        Answer::More => Some(Answer::More),
        Answer::Gone => Some(Answer::Gone),
        Answer::Ready => Some(Answer::Ready),
        Answer::NotYet { target } => Some(Answer::NotYet { target: *target }),
        Answer::Down => Some(Answer::Down),
        Answer::NotMine => Some(Answer::NotMine),
        Answer::NoBranch => Some(Answer::NoBranch),
        Answer::NotLocked => Some(Answer::NotLocked),
        Answer::NotPrepared => Some(Answer::NotPrepared),
        Answer::NotBegun => Some(Answer::NotBegun),
        Answer::NotActive => Some(Answer::NotActive),
        Answer::AlreadyUp => Some(Answer::AlreadyUp),
        Answer::NumbersSpent => Some(Answer::NumbersSpent),
        Answer::Fault { area } => Some(Answer::Fault { area: *area }),
        Answer::Damaged { area, place } => Some(Answer::Damaged {
            area: *area,
            place: *place,
        }),
        Answer::NoMemory => Some(Answer::NoMemory),
        Answer::Blocked { .. } => None,
        Answer::Row(_) => None,
        Answer::Rows(_) => None,
        Answer::Keys(_) => None,
        Answer::Started { .. } => None,
        Answer::Waiting(_) => None,
        Answer::Cycle(_) => None,
    }
}

/// The answer twice; want of memory twice, where its copy takes memory that isn't had.
pub(crate) fn twice(alloc: Global, answer: Answer) -> (Answer, Answer)
    ensures same { result.1 ≡ result.0 }
    ensures told { IsTold answer result.0 }
{
    match answer.copy(alloc) {
        Ok(copy) => (answer, copy),
        Err(NoMemory) => match plain(&answer) {
            Some(copy) => (answer, copy),
            None => (Answer::NoMemory, Answer::NoMemory),
        },
    }
}
