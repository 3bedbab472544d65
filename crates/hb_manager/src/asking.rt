// A request of the board, answered twice: once for the trail.
ghost use Rattle.std.specs.Prelude.{◌≡◌, IfOk, OnErr};
ghost use Rattle.hb_types.specs.declared.answer.Answer.TheVariants as answer;
ghost use Rattle.hb_manager.specs.Managing.{GoesOn, IsAnsweredBy};

use hb_board::Board;
use hb_types::{Answer, NoMemory, Request};

/// What the board answers.
fn judge(board: &Board, request: &Request) -> Result<(Answer, Answer), NoMemory>
    ensures answered { IfOk result (λ r. IsAnsweredBy board.now request.now r.0) }
    ensures same { IfOk result (λ r. r.1 ≡ r.0) }
{
    let answer = board.answer(request);
    let entered = answer.copy(board.alloc)?;
    Ok((answer, entered))
}

/// Asks the board. Without memory for both answers, or for what it keeps, it does nothing.
pub(crate) fn ask_twice(board: &mut Board, request: &Request) -> Result<(Answer, Answer), NoMemory>
    ensures goes { IfOk result (λ r. GoesOn request.now r.0 board.old board.new) }
    ensures same { IfOk result (λ r. r.1 ≡ r.0) }
    ensures none { OnErr result (GoesOn request.now answer.NoMemory board.old board.new) }
{
    match judge(board, request) {
        Ok((answer, entered)) => match board.apply(request, &answer) {
            Ok(()) => Ok((answer, entered)),
            Err(NoMemory) => Err(NoMemory),
        },
        Err(NoMemory) => Err(NoMemory),
    }
}
