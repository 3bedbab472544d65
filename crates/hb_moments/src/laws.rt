// The cut of a history at a moment, the callers' lists at it, and its first lines.
ghost use Rattle.hb_parts.specs.Moments.{
  AnswersAreOfNodes,
  BeginsMayFail,
  CutsAre,
  CutsAreHistories,
  CutsAreOfSystem,
  FirstLinesInOrder,
  HasLists,
  HistoriesMerge,
  ListsKeepWithin,
  MomentsAreCallings,
  PartsAreBound,
};

/// Where each node has what it had answered by a moment, perhaps with the call in progress, the history has such a cut.
pub fn cuts_are()
    ensures { CutsAre }
{}

/// At a cut each caller's items are the first of its list, all whole but perhaps the last, which is as far as it came.
pub fn has_lists()
    ensures { HasLists }
{}

/// The trails, lists and lines of one history are merged.
pub fn histories_merge()
    ensures { HistoriesMerge }
{}

/// A cut is a history of its trails, of the lists at it and of its lines.
pub fn cuts_are_histories()
    ensures { CutsAreHistories }
{}

/// Lists as far as they came obey, are placed, and show numbers that were answered, where the whole ones do.
pub fn lists_keep_within()
    ensures { ListsKeepWithin }
{}

/// What a node answers in its run is of its kind.
pub fn answers_are_of_nodes()
    ensures { AnswersAreOfNodes }
{}

/// What is so of an item whatever it was answered is so of it as far as it came, where no lock was granted to it but in the whole.
pub fn parts_are_bound()
    ensures { PartsAreBound }
{}

/// A Begin that was asked last may have been answered NoMemory as well: the log is the same, and nothing is begun.
pub fn begins_may_fail()
    ensures { BeginsMayFail }
{}

/// At a cut each call was answered as a system answers, the one in progress too.
pub fn cuts_are_of_system()
    ensures { CutsAreOfSystem }
{}

/// What a moment leaves, with all lines of its cut: all premises of the law of composition but those on transactions and outcomes.
pub fn moments_are_callings()
    ensures { MomentsAreCallings }
{}

/// What stands in the order of its numbers does so where only the first lines are taken.
pub fn first_lines_in_order()
    ensures { FirstLinesInOrder }
{}
