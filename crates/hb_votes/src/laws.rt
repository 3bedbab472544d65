// Laws of votes.
ghost use Rattle.hb_parts.specs.Voting.{LogsStayRight, NewAreDecided, ServersRan};

use crate::fes::fes_log_is_kept;
use hb_coordlaws::{
    aborted_stays, decided_stays, decision_stands, decisions_grow, decisions_were_asked,
    given_is_reserved, order_is_kept, stopped_is_ordered,
};
use hb_disks::right_halves;
use hb_loglaws::{right_logs_are_halves, right_logs_say};
use hb_serverlaws::{log_is_kept, records_were_asked, room_is_kept, votes_stand};
use hb_whose::{asked_of_given, commits_are_told, given_are_new, one_owner, rollbacks_are_told};

/// A server's trail, without the Enlists that nobody was told of, is a run in which each transaction enlists once.
pub fn servers_ran()
    ensures { ServersRan }
{
    right_halves();
    one_owner();
    asked_of_given();
    given_are_new();
}

/// A decision that is not of the base is of a transaction that fes1 gave, with the votes of all its nodes.
pub fn new_are_decided()
    ensures { NewAreDecided }
{
    decisions_were_asked();
    one_owner();
    asked_of_given();
}

/// The logs of a system stay right.
pub fn logs_stay_right()
    ensures { LogsStayRight }
{
    stopped_is_ordered();
    order_is_kept();
    fes_log_is_kept();
    given_is_reserved();
    decision_stands();
    decided_stays();
    aborted_stays();
    decisions_were_asked();
    decisions_grow();
    right_halves();
    right_logs_are_halves();
    right_logs_say();
    log_is_kept();
    room_is_kept();
    records_were_asked();
    votes_stand();
    one_owner();
    asked_of_given();
    given_are_new();
    commits_are_told();
    rollbacks_are_told();
    new_are_decided();
}
