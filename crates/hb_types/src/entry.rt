// Where the rows of a hash group lie.
/// Where a group's rows lie, or from where to where they are being moved.
#[derive(Clone, Copy, Debug, PartialEq, Eq)]
pub enum Entry {
    At(u16),
    Moving(u16, u16),
}
