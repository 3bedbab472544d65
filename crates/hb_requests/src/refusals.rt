// The requests that end a branch or let it vote, where no record is forced.
ghost use Rattle.std.specs.Prelude.{MatchOption, IfSome};
ghost use Rattle.hb_engine.specs.Turned.{Leads};
ghost use Rattle.hb_requests.specs.Forced.{Votes, Commits, RollsBack, RecordsNone};

use hb_engine::{Engine, Standing};
use hb_types::{Answer, Number, Request, Tx};

/// Refuses a Prepare; None where a vote is to be forced.
pub(crate) fn prepare(engine: &Engine, tx: Tx) -> Option<Answer>
    ensures turns { MatchOption result (Votes engine.now tx) (λ a. Leads engine.now engine.now (Request.Prepare tx) a) }
    ensures records_none { IfSome result (λ a. RecordsNone engine.now (Request.Prepare tx) a) }
{
    match engine.standing(tx) {
        Standing::Live => None,
        Standing::Absent => Some(Answer::NoBranch),
        Standing::Voted(_) => Some(Answer::NoBranch),
    }
}

/// Refuses a Commit; None where one is to be forced.
pub(crate) fn commit(engine: &Engine, tx: Tx, number: Number) -> Option<Answer>
    ensures turns { MatchOption result (Commits engine.now tx number) (λ a. Leads engine.now engine.now (Request.Commit tx number) a) }
    ensures records_none { IfSome result (λ a. RecordsNone engine.now (Request.Commit tx number) a) }
{
    match engine.standing(tx) {
        Standing::Absent => Some(Answer::NoBranch),
        Standing::Live => Some(Answer::NotPrepared),
        Standing::Voted(floor) if number.0 <= floor.0 => Some(Answer::Low { floor }),
        Standing::Voted(_) => None,
    }
}

/// Gives up a live branch, or refuses; None where an Abort is to be forced.
pub(crate) fn rollback(engine: &mut Engine, tx: Tx) -> Option<Answer>
    ensures turns { MatchOption result (RollsBack engine.old engine.new tx) (λ a. Leads engine.old engine.new (Request.Rollback tx) a) }
    ensures records_none { IfSome result (λ a. RecordsNone engine.old (Request.Rollback tx) a) }
{
    match engine.standing(tx) {
        Standing::Absent => Some(Answer::NoBranch),
        Standing::Live => {
            engine.dropped(tx);
            Some(Answer::Done)
        }
        Standing::Voted(_) => None,
    }
}
