// Why a branch may not do what it is asked.

/// Why a branch may not do what it is asked.
#[derive(Clone, Copy, Debug, PartialEq, Eq)]
pub enum Refusal {
    /// No branch of the transaction lives.
    NoBranch,
    /// It doesn't hold the lock that it needs.
    NotLocked,
}
