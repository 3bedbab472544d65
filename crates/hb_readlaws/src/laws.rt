// Laws of reads.
ghost use Rattle.hb_readlaws.specs.Ordering.{ReadsAreClean, SpacesAreClean, GroupsAreClean, SpacesAreFree, GroupsAreFree, RowsAreOrdered, SpacesAreOrdered, GroupsAreOrdered};
ghost use Rattle.hb_readlaws.specs.Stood.{LastWritersStood};

/// A row that is read was put by the reader itself or by a transaction that has committed.
pub fn reads_are_clean()
    ensures { ReadsAreClean }
{}

/// A row of a space that is read was put so too.
pub fn spaces_are_clean()
    ensures { SpacesAreClean }
{}

/// So was a row of a group.
pub fn groups_are_clean()
    ensures { GroupsAreClean }
{}

/// Nobody else in doubt has a change in a space that is read.
pub fn spaces_are_free()
    ensures { SpacesAreFree }
{}

/// Nor in a group.
pub fn groups_are_free()
    ensures { GroupsAreFree }
{}

/// A row that a decided transaction read is the one after all smaller numbers and its own writes.
pub fn rows_are_ordered()
    ensures { RowsAreOrdered }
{}

/// So are the rows of a space that it read.
pub fn spaces_are_ordered()
    ensures { SpacesAreOrdered }
{}

/// So are the rows of a group that it read.
pub fn groups_are_ordered()
    ensures { GroupsAreOrdered }
{}

/// A row that the last who committed put stood after the decisions of the base, or after some more.
pub fn last_writers_stood()
    ensures { LastWritersStood }
{}
