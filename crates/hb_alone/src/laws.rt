// The law of a transaction run alone.
ghost use Rattle.hb_alone.specs.RunThrough.{RightItemsRunAlone};

/// Where the rows that the items of a transaction were answered are those of a system, and its items are right, its statements run alone
/// from the system's state: they give the replies that were shown, each TOO MUCH for locks where it may be, and the state of which the
/// rows behind the items are.
pub fn right_items_run_alone()
    ensures { RightItemsRunAlone }
{}
