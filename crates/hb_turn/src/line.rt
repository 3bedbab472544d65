// What a line of pdrbal is to do.
use hb_types::Text;

/// A line of pdrbal: whose it is, its table, the keys that a batch asks for, and its turns.
#[derive(Drop)]
pub struct Line {
    pub session: u8,
    pub back_ends: u8,
    pub table: Text,
    pub rows: u32,
    pub turns: u32,
}
