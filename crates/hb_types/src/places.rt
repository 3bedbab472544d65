// Where rows lie, and what is locked.
/// The rows of one table in one area.
#[derive(Clone, Copy, Debug, PartialEq, Eq, PartialOrd, Ord)]
pub struct Space {
    pub area: u16,
    pub table: u16,
}

/// Where one row lies.
#[derive(Clone, Copy, Debug, PartialEq, Eq, PartialOrd, Ord)]
pub struct Place {
    pub space: Space,
    pub group: u16,
    pub key: i64,
}

/// What is locked.
#[derive(Clone, Copy, Debug, PartialEq, Eq, PartialOrd, Ord)]
pub enum Path {
    Whole(Space),
    Group(Space, u16),
    Key(Place),
}
