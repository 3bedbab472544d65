// What a line is made of.
ghost use Rattle.std.specs.Prelude.{◌≡◌};

use hb_model::Op;
use hb_types::Text;

/// A reserved word. In a line its letters stand in any case.
#[derive(Clone, Copy, Debug, PartialEq, Eq)]
pub enum Word {
    Add,
    Alter,
    And,
    Area,
    At,
    Barrier,
    By,
    Commit,
    Count,
    Create,
    Delete,
    Exclusive,
    From,
    Give,
    Hash,
    Hasha,
    In,
    Insert,
    Integer,
    Into,
    Lock,
    Mode,
    Not,
    On,
    Or,
    Pdrbal,
    Rdarea,
    Rollback,
    Select,
    Set,
    Share,
    Start,
    Step,
    Stop,
    Sum,
    Sync,
    Table,
    Update,
    Values,
    Varchar,
    Where,
}

/// A token of a line.
#[derive(Drop)]
pub enum Token {
    /// An integer of 1 to 19 digits.
    Number(u64),
    /// A text, without its quotes.
    Text(Text),
    /// A name of 1 to 30 bytes that is no reserved word.
    Name(Text),
    Word(Word),
    Open,
    Close,
    Comma,
    Colon,
    Semicolon,
    Star,
    Plus,
    Minus,
    Compare(Op),
    /// Bytes that are no token, and what stands behind 512 tokens.
    Bad,
}

/// A token with the place of its first byte, from 0.
#[derive(Drop)]
pub struct Placed {
    pub place: u32,
    pub token: Token,
}
