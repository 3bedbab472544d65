// Laws of the turns of pdrbal over a whole run.
ghost use Rattle.hb_parts.specs.Turning.{ChecksTellNumbers, TurnsStep};
ghost use Rattle.hb_parts.specs.Whole.{CompletesAreBalanced};

use hb_checks::{checks_were_steps, hints_are_few};
use hb_coordlaws::{decided_were_given, decision_stands, decisions_grow, transactions_ascend};
use hb_movelaws::{batch_moves, check_tells, finish_settles};
use hb_onefamily::one_system;
use hb_steps::txns_have_items;
use hb_votes::{new_are_decided, servers_ran};
use hb_whose::given_are_new;

/// The rows of a check tell the number of its table.
pub fn checks_tell_numbers()
    ensures { ChecksTellNumbers }
{
    check_tells();
}

/// A decided turn is a step: a check changes nothing, a batch moves rows and a finish settles an entry, and each line tells rightly.
pub fn turns_step()
    ensures { TurnsStep }
{
    checks_tell_numbers();
    checks_were_steps();
    hints_are_few();
    check_tells();
    batch_moves();
    finish_settles();
}

/// A table that a line shows complete is balanced at that number.
pub fn completes_are_balanced()
    ensures { CompletesAreBalanced }
{
    transactions_ascend();
    decisions_grow();
    decision_stands();
    decided_were_given();
    given_are_new();
    new_are_decided();
    servers_ran();
    one_system();
    txns_have_items();
    check_tells();
}
