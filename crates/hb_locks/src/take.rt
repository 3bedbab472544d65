// What a request for a lock is answered.
use hb_types::{Holder, Mode};
use sqlite_items::Items;

/// The answer to a request for a lock: it is held, or others stand in the way.
#[derive(Debug, Drop)]
pub enum Take {
    Granted,
    Blocked {
        wanted: Mode,
        holders: Items<Holder>,
    },
}
