// Where a statement stands.
use hb_access::{Access, Usage};
use hb_definerows::{Draft, Found};
use hb_model::Reply;
use hb_types::{Change, Text};
use hb_writes::Writing;

/// What follows what is asked for.
#[derive(Drop)]
pub enum Then {
    /// The areas, for a new area.
    NewArea(u8, Text, Text),
    /// The tables, for a new table.
    NewTable(Draft),
    /// The areas, for a new table beside others.
    TableAreas(Vec<Found>, Draft),
    /// The lock of the entries of a new table, whose rows are put behind it.
    LockEntries(u16, Vec<Change>),
    /// The rows of a new table.
    WriteTable(Vec<Change>),
    /// The tables, for an area more.
    Names(Text, Text),
    /// The areas, for an area more of a table.
    AreaOf(u16, Text),
    /// The members, for an area more of a table.
    Members(u16, u16),
    /// The entries, for an area more beside the members of a table.
    Entries(u16, u16, Vec<u16>),
}

/// Where a statement stands: what is asked for, with what follows it, or the writes.
#[derive(Drop)]
pub enum Stage {
    Asking(Access, Then),
    Writing(Writing),
    Ended(Usage),
}

/// Where a statement went on to.
#[derive(Drop)]
pub enum Went {
    On(Stage),
    Replied(Reply, Usage),
    Refused(Reply, Usage),
}
