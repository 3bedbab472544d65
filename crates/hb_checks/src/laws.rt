// Laws of what a turn of pdrbal needs of the turns before it.
ghost use Rattle.hb_parts.specs.Turning.{ChainsKeepNumbers, ChecksWereStepsBy, HintsAreFew, StepsKeepNumbers};

use hb_coordlaws::{decided_were_given, decision_stands, decisions_grow, transactions_ascend};
use hb_model::names_stay;
use hb_onefamily::one_system;
use hb_steps::txns_have_items;
use hb_votes::{new_are_decided, servers_ran};
use hb_whose::given_are_new;

/// A step of any transaction leaves each table's name its number.
pub fn steps_keep_numbers()
    ensures { StepsKeepNumbers }
{
    names_stay();
}

/// And so do all steps one after another.
pub fn chains_keep_numbers()
    ensures { ChainsKeepNumbers }
{
    steps_keep_numbers();
}

/// GroupKeys told no more keys than it was asked for.
pub fn hints_are_few()
    ensures { HintsAreFew }
{}

/// A check that was decided, before a transaction in its caller's list, was a step before that transaction's, and the table that it found
/// has its number still.
pub fn checks_were_steps()
    ensures { ChecksWereStepsBy }
{
    transactions_ascend();
    decisions_grow();
    decision_stands();
    decided_were_given();
    given_are_new();
    new_are_decided();
    servers_ran();
    one_system();
    txns_have_items();
    chains_keep_numbers();
}
