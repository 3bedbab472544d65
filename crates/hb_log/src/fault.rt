// Why a log doesn't answer.

/// Why a log doesn't answer.
#[derive(Clone, Copy, Debug, PartialEq, Eq)]
pub enum LogFault {
    /// The disk failed.
    Fault,
    /// The opened record at this place isn't in the grammar.
    Damaged { place: u64 },
    /// An earlier append failed.
    Closed,
    NoMemory,
}
