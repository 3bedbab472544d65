// Replies that are words alone.
ghost use Rattle.std.specs.Prelude.{◌≡◌};
ghost use Rattle.hb_print.specs.Replies.{words_of};

use hb_model::Reply;

#[tactic(auto, unfolding(crate::specs::Replies::words_of))]
pub(crate) fn words(reply: &Reply) -> &'static [u8]
    ensures { result.now ≡ words_of reply.now }
{
    match reply {
        Reply::Created => b"CREATED",
        Reply::Added => b"ADDED",
        Reply::Inserted => b"INSERTED 1",
        Reply::Locked => b"LOCKED",
        Reply::RolledBack => b"ROLLED BACK",
        Reply::RolledBackEnd => b"ROLLED BACK END",
        Reply::Given => b"GIVEN",
        Reply::NoTable => b"NO TABLE",
        Reply::TableThere => b"TABLE THERE",
        Reply::NoColumn => b"NO COLUMN",
        Reply::ColumnTwice => b"COLUMN TWICE",
        Reply::KeyFixed => b"KEY FIXED",
        Reply::WrongType => b"WRONG TYPE",
        Reply::Overflow => b"OVERFLOW",
        Reply::TooLong => b"TOO LONG",
        Reply::KeyTaken => b"KEY TAKEN",
        Reply::AreaThere => b"AREA THERE",
        Reply::NoArea => b"NO AREA",
        Reply::NoNode => b"NO NODE",
        Reply::TooMany => b"TOO MANY",
        Reply::Rebalancing => b"REBALANCING",
        Reply::TooMuch => b"TOO MUCH",
        Reply::NumbersSpent => b"NUMBERS SPENT",
        Reply::InTransaction => b"IN TRANSACTION",
        Reply::NoTransaction => b"NO TRANSACTION",
        Reply::Busy => b"BUSY",
        Reply::NothingGiven => b"NOTHING GIVEN",
        Reply::Full => b"FULL",
        Reply::NoMemory => b"NO MEMORY",
        _ => b"",
    }
}
