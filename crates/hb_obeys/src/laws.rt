// Laws of the callers.
ghost use Rattle.hb_obeys.specs.Obeying.{MoversObey, SettlersObey, TransactionsObey};

/// A session's transaction, of any statements, obeys as far as it came.
pub fn transactions_obey()
    ensures { TransactionsObey }
{}

/// A driver that settles a branch by its transaction's outcome obeys.
pub fn settlers_obey()
    ensures { SettlersObey }
{}

/// A pdrbal line obeys through its checks and turns.
pub fn movers_obey()
    ensures { MoversObey }
{}
