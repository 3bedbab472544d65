// Laws of the coordinator's runs.
ghost use Rattle.hb_coordlaws.specs.Ascending.{TransactionsAscend, DecisionsGrow};
ghost use Rattle.hb_coordlaws.specs.Asking.{DecisionsWereAsked, DecidedWereGiven};
ghost use Rattle.hb_coordlaws.specs.Finality.{AbortedStays, DecidedStays};
ghost use Rattle.hb_coordlaws.specs.Order.{StoppedIsOrdered, OrderIsKept, LogIsKept, GivenIsReserved, DecisionStands, FaultedIsFinal};

/// No transaction is given twice.
pub fn transactions_ascend()
    ensures { TransactionsAscend }
{}

/// No decision goes, and numbers ascend.
pub fn decisions_grow()
    ensures { DecisionsGrow }
{}

/// A coordinator that was just read from a log of the system stands in order.
pub fn stopped_is_ordered()
    ensures { StoppedIsOrdered }
{}

/// Numbers and reservations ascend, and no transaction is decided twice.
pub fn order_is_kept()
    ensures { OrderIsKept }
{}

/// The coordinator's log keeps its grammar, its reservations and its room.
pub fn log_is_kept()
    ensures { LogIsKept }
{}

/// A transaction that was given is reserved in each later log.
pub fn given_is_reserved()
    ensures { GivenIsReserved }
{}

/// A decision that was answered stands in each later log, above the votes' floors.
pub fn decision_stands()
    ensures { DecisionStands }
{}

/// A decision that faulted is made or not for good.
pub fn faulted_is_final()
    ensures { FaultedIsFinal }
{}

/// A transaction that Outcome told aborted is decided in no later log of the coordinator.
pub fn aborted_stays()
    ensures { AbortedStays }
{}

/// A transaction that Outcome told decided stays so, with its number.
pub fn decided_stays()
    ensures { DecidedStays }
{}

/// Each decision since a run's start is of a Decide that was answered with its number or that faulted.
pub fn decisions_were_asked()
    ensures { DecisionsWereAsked }
{}

/// Its transaction was active then, or was given since.
pub fn decided_were_given()
    ensures { DecidedWereGiven }
{}
