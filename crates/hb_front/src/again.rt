// A coordinator's answer, once more.
ghost use Rattle.std.specs.Prelude.{◌≡◌};
ghost use Rattle.hb_coord.specs.Standing.{IsOwn};

use hb_types::Answer;
use sqlite_items::Items;
use std::alloc::Global;

/// The same answer, without memory: a coordinator's holds no list.
pub(crate) fn again(alloc: Global, answer: &Answer) -> Answer
    requires { IsOwn answer.now }
    ensures { result ≡ answer.now }
{
    match answer {
        Answer::Begun(tx) => Answer::Begun(*tx),
        Answer::Decided(number) => Answer::Decided(*number),
        Answer::Started { .. } => Answer::Started {
            doubts: Items::new(alloc),
        },
        Answer::Active => Answer::Active,
        Answer::Aborted => Answer::Aborted,
        Answer::Done => Answer::Done,
        Answer::Down => Answer::Down,
        Answer::NotMine => Answer::NotMine,
        Answer::NotActive => Answer::NotActive,
        Answer::AlreadyUp => Answer::AlreadyUp,
        Answer::NumbersSpent => Answer::NumbersSpent,
        Answer::Fault { area } => Answer::Fault { area: *area },
        Answer::Damaged { area, place } => Answer::Damaged {
            area: *area,
            place: *place,
        },
        _ => Answer::NoMemory,
    }
}
