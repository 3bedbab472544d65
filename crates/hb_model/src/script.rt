// The lines of a script, read.

use crate::line::Work;
use hb_types::Text;

/// A line of a script, read.
#[derive(Drop)]
pub enum Item {
    Blank,
    Give {
        session: Text,
        work: Work,
        held: bool,
    },
    Step {
        session: Text,
        most: u32,
    },
    Stop {
        node: Text,
    },
    Arm {
        node: Text,
        area: bool,
        k: u32,
    },
    Start {
        node: Text,
    },
    Sync {
        node: Text,
    },
    Barrier,
}
