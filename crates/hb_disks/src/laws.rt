// Laws of logs that grow, and of empty disks.
ghost use Rattle.std.specs.Prelude.{◌≡◌, List, [], ◌∷◌, ◌++◌};
ghost use Rattle.hb_types.specs.Lists.{Each, EachBehind};
ghost use Rattle.hb_types.specs.Put.{put_all};
ghost use Rattle.hb_types.specs.declared.change.LogItem.{LogItem};
ghost use Rattle.hb_model.specs.State.{nothing};
ghost use Rattle.hb_disks.specs.Disks.{StandsFor};
ghost use Rattle.hb_disks.specs.Logless.{empty_images};
ghost use Rattle.hb_disks.specs.Redo.{Decided, redo, after};
ghost use Rattle.hb_disks.specs.Says.{held, ch};
ghost use Rattle.hb_disks.specs.LogRules.{LogOK, EndFits, LocksFit, IsBranchItem};

/// A decision more puts the changes of its branch onto what the others leave.
pub fn held_grows()
    ensures { (log : List LogItem) (ds : List Decided) (d : Decided) → held log (ds ++ d ∷ []) ≡ put_all (held log ds) (ch log d.tx) }
{}

/// A record more is one step of redo.
pub fn redo_grows()
    ensures { (log : List LogItem) (i : LogItem) → redo (log ++ i ∷ []) ≡ after (redo log) i }
{}

/// A log of branches is right where its ends are, and its locks.
pub fn right_halves()
    ensures { (log : List LogItem) → Each IsBranchItem log → EachBehind EndFits [] log → EachBehind LocksFit [] log → LogOK [] log }
{}

/// Empty disks stand for the system without areas and tables.
pub fn empty_disks_stand()
    ensures { StandsFor empty_images nothing }
{}
