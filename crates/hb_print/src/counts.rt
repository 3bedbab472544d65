// Replies that are words and numbers.
ghost use Rattle.std.specs.Prelude.{◌≡◌, IfOk, string_bytes};
ghost use Rattle.hb_print.specs.Replies.{count_line};

use hb_model::Reply;
use hb_types::{NoMemory, Number};
use std::alloc::Global;

#[tactic(auto, unfolding(crate::specs::Replies::count_line), using(crate::proofs::Pieces::pieces))]
pub(crate) fn count_line(alloc: Global, reply: &Reply) -> Result<String, NoMemory>
    ensures { IfOk result (λ s. string_bytes s ≡ count_line reply.now) }
{
    match reply {
        Reply::Rows(rows) => {
            let n = rows.len();
            Ok(format!(in alloc; "ROWS {n}")?)
        }
        Reply::Updated(n) => Ok(format!(in alloc; "UPDATED {n}")?),
        Reply::Deleted(n) => Ok(format!(in alloc; "DELETED {n}")?),
        Reply::Committed(Number(n)) => Ok(format!(in alloc; "COMMITTED {n}")?),
        Reply::Stepped(k) => Ok(format!(in alloc; "STEPPED {k}")?),
        Reply::Moved {
            rows,
            group,
            number: Number(n),
        } => Ok(format!(in alloc; "MOVED {rows} GROUP {group} AT {n}")?),
        Reply::Complete(Number(n)) => Ok(format!(in alloc; "COMPLETE {n}")?),
        Reply::Suspended {
            turns,
            number: Number(n),
        } => Ok(format!(in alloc; "SUSPENDED {turns} AT {n}")?),
        Reply::Syntax(line, place) => Ok(format!(in alloc; "LINE {line} SYNTAX {place}")?),
        Reply::NotInParallel(line) => Ok(format!(in alloc; "LINE {line} NOT IN PARALLEL")?),
        Reply::Lines(n) => Ok(format!(in alloc; "LINES {n}")?),
        _ => Ok(String::new(alloc)),
    }
}
