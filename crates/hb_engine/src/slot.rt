// A branch that has not ended.
use hb_branch::Branch;
use hb_types::Number;

/// A branch that has not ended: its changes, and the floor of its vote where it has voted.
#[derive(Drop)]
pub struct Slot {
    pub branch: Branch,
    pub vote: Option<Number>,
}
