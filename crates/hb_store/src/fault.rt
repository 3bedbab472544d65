// Why a store doesn't answer.

/// Why a store doesn't answer.
#[derive(Clone, Copy, Debug, PartialEq, Eq)]
pub enum StoreFault {
    /// The disk failed.
    Fault,
    /// The valid point, whose header is at this place, isn't in the format.
    Damaged { place: u64 },
    /// The format has no place left for the point.
    Spent,
    NoMemory,
}
