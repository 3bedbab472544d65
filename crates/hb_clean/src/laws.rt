// The law of clean rows.
ghost use Rattle.hb_parts.specs.Whole.{RowsAreClean};

use hb_coordlaws::transactions_ascend;
use hb_readlaws::{
    groups_are_clean, groups_are_free, last_writers_stood, reads_are_clean, spaces_are_clean,
    spaces_are_free,
};
use hb_votes::servers_ran;
use hb_whose::{given_are_new, one_owner};

/// Each row that is shown is a selection of one that stood in some table, or that its transaction made itself.
pub fn rows_are_clean()
    ensures { RowsAreClean }
{
    transactions_ascend();
    one_owner();
    given_are_new();
    servers_ran();
    reads_are_clean();
    spaces_are_clean();
    groups_are_clean();
    spaces_are_free();
    groups_are_free();
    last_writers_stood();
}
