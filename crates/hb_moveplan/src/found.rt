// What a plan comes to.
use crate::finish::Finished;
use hb_batch::Hint;
use hb_model::Reply;
use sqlite_items::Items;

/// What a plan came to.
#[derive(Drop)]
pub enum Found {
    /// The groups that move.
    Hints(Items<Hint>),
    /// The rows that a batch moved; none where the entry is another.
    Moved(Option<u32>),
    Finished(Finished),
}

/// What an answer made of a plan.
#[derive(Drop)]
pub enum Taken {
    /// There is more to be asked.
    More,
    Came(Found),
    Refused(Reply),
}
