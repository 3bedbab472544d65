// Why what is given isn't taken.

/// Why a statement or a line of pdrbal isn't taken.
#[derive(Clone, Copy, Debug, PartialEq, Eq)]
pub enum StepFault {
    /// There are 16 sessions already.
    Full,
    /// A statement or a line of pdrbal of the session is in progress.
    Busy,
    /// A line of pdrbal stands in an open transaction.
    InTransaction,
    /// There is no transaction to end.
    NoTransaction,
    NoMemory,
}
