//! A node by its contract: what it answers, what its trail says of that, and what its disks may hold at each moment.
#![tactic(auto)]

mod node;
mod nodes;

pub use node::Node;
pub use nodes::Nodes;
