// The laws of the board, over its definitions.
ghost use Rattle.hb_types.specs.declared.answer.Answer.{Answer};
ghost use Rattle.hb_types.specs.declared.request.Request.{Request};
ghost use Rattle.hb_runs.specs.Board.{Board, Steps, new_board};
ghost use Rattle.hb_board.specs.Cycles.{HasNoCycle, IsExact};

/// At first no transactions wait for each other.
pub fn no_cycle_at_first()
    ensures { HasNoCycle new_board }
{}

/// No step makes a cycle among the kept edges to live holders.
pub fn steps_make_no_cycle()
    ensures { (b c : Board) (q : Request) (a : Answer) → Steps b q a c → HasNoCycle b → HasNoCycle c }
{}

/// A cycle is answered exactly where a wait would close one.
pub fn cycles_are_exact()
    ensures { (b c : Board) (q : Request) (a : Answer) → Steps b q a c → HasNoCycle b → IsExact b q a }
{}
