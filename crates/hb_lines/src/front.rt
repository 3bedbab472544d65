// A line that was taken whole, and what it says.
ghost use Rattle.std.specs.Prelude.{◌≡◌, ◌+◌, ◌<◌, nat_lt, length, IfOk, IfSome, IsErrOf};
ghost use Rattle.hb_lines.specs.Lines.{without_return};
ghost use Rattle.hb_lines.specs.Saying.{Says, IsPlainSaid, most_bytes};
ghost use Rattle.hb_lines.specs.Next.{SaysOr};

use crate::LineFault;
use crate::line::read_line;
use crate::said::Said;
use std::alloc::Global;

/// The most bytes of a line, without its end.
const MOST: usize = 8192;

/// Whether more bytes were taken than a line and its carriage return may have.
pub(crate) fn is_past_the_most(front: &[u8]) -> bool
    ensures { result ≡ nat_lt (most_bytes + 1) (length front.now) }
{
    front.len() > MOST + 1
}

/// Without the carriage return at the end.
#[tactic(auto, using(crate::proofs::ReturnLemmas::return_cut, crate::proofs::ReturnLemmas::return_kept, crate::proofs::ReturnLemmas::return_none))]
fn without_last_return(part: &[u8]) -> &[u8]
    ensures { result.now ≡ without_return part.now }
{
    let count = part.len();
    if count > 0 && part[count - 1] == b'\r' {
        &part[..count - 1]
    } else {
        part
    }
}

/// What a line says that was taken up to its end.
fn whole_line(alloc: Global, front: &[u8]) -> Result<Said, LineFault>
    ensures says { IfOk result (Says (without_return front.now)) }
    ensures too_long { IsErrOf result LineFault.TooLong → most_bytes < length (without_return front.now) }
    ensures other { IsErrOf result LineFault.Source → ⊥ }
    ensures plain { IfOk result IsPlainSaid }
{
    let line = without_last_return(front);
    if line.len() > MOST {
        return Err(LineFault::TooLong);
    }
    Ok(read_line(alloc, line)?)
}

/// The same, as the next line of a script.
pub(crate) fn some_line(alloc: Global, front: &[u8]) -> Result<Option<Said>, LineFault>
    ensures says { SaysOr (without_return front.now) result }
    ensures plain { IfOk result (λ found. IfSome found IsPlainSaid) }
{
    match whole_line(alloc, front) {
        Ok(said) => Ok(Some(said)),
        Err(fault) => Err(fault),
    }
}
