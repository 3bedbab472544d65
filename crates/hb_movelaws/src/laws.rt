// Laws of the turns of pdrbal.
ghost use Rattle.hb_movelaws.specs.Moving.{BatchMoves, CheckTells, FinishSettles};

/// A check changes no row, and its line tells whether an entry of the table is Moving.
pub fn check_tells()
    ensures { CheckTells }
{}

/// A finish turns the hinted entry of the table from Moving to its new area, and leaves the tables.
pub fn finish_settles()
    ensures { FinishSettles }
{}

/// A batch leaves the tables and the layout, moves the rows of its keys that had one, and changes nothing else.
pub fn batch_moves()
    ensures { BatchMoves }
{}
