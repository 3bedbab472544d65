// Transactions, commit numbers, nodes and owners by number.
/// A transaction's number, from 1.
#[derive(Clone, Copy, Debug, PartialEq, Eq, PartialOrd, Ord)]
pub struct Tx(pub u64);

/// A commit number, or a floor.
#[derive(Clone, Copy, Debug, PartialEq, Eq, PartialOrd, Ord)]
pub struct Number(pub u64);

/// 0 is fes1, 1 is ds, 2 to 9 are bes1 to bes8, 10 is mgr.
#[derive(Clone, Copy, Debug, PartialEq, Eq, PartialOrd, Ord)]
pub struct NodeName(pub u8);

/// A set of nodes: bit i stands for `NodeName(i)`.
#[derive(Clone, Copy, Debug, PartialEq, Eq)]
pub struct Left(pub u16);

/// The nth transaction that a session began, from 1; the session by its place among the names.
#[derive(Clone, Copy, Debug, PartialEq, Eq, PartialOrd, Ord)]
pub struct Owner {
    pub session: u8,
    pub nth: u64,
}
