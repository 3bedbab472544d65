// The law of one thread of steps.
ghost use Rattle.hb_parts.specs.Whole.{RunsAreExplained};

use hb_coordlaws::{
    aborted_stays, decided_stays, decision_stands, decisions_grow, decisions_were_asked,
    given_is_reserved, order_is_kept, stopped_is_ordered, transactions_ascend,
};
use hb_serverlaws::records_were_asked;
use hb_votes::{fes_log_is_kept, new_are_decided};
use hb_whose::{commits_are_told, given_are_new, one_owner, rollbacks_are_told};

/// A run whose callers did their items in their order is explained in time, where it is apart from time.
pub fn runs_are_explained()
    ensures { RunsAreExplained }
{
    stopped_is_ordered();
    order_is_kept();
    fes_log_is_kept();
    given_is_reserved();
    transactions_ascend();
    decision_stands();
    decided_stays();
    aborted_stays();
    decisions_were_asked();
    decisions_grow();
    records_were_asked();
    one_owner();
    given_are_new();
    commits_are_told();
    rollbacks_are_told();
    new_are_decided();
}
