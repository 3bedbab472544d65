// Where the valid point stands in the file.

/// What the store knows of the valid point: in which header it stands, and where its image lies.
#[derive(Clone, Copy, Debug, PartialEq, Eq)]
pub struct Valid {
    /// In the second header.
    pub second: bool,
    pub sequence: u64,
    pub place: u64,
    pub length: u64,
}
