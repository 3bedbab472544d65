// What a line of a script says.
use hb_model::Item;

/// What a line of a script says: an item of the grammar, or nothing, and then the place of the byte, from 1, at which it is refused.
#[derive(Drop)]
pub enum Said {
    Item(Item),
    Syntax(u32),
}
