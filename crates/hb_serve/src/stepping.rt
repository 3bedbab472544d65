// STEP.
ghost use Rattle.std.specs.Prelude.{◌≡◌, ◌≤◌, None, IfOk};
ghost use Rattle.hb_node.specs.Lists.{Onward};
ghost use Rattle.hb_stepper.specs.Adding.{Adds};
ghost use Rattle.hb_stepper.specs.Running.{running};
ghost use Rattle.hb_stepper.specs.Steps.{line_of};
ghost use Rattle.hb_serve.specs.declared.own.Own.TheVariants as own_of;
ghost use Rattle.hb_serve.specs.Doing.{Steps, made_reply};

use crate::own::Own;
use hb_model::{Line, Reply};
use hb_node::Nodes;
use hb_stepper::Sessions;
use hb_types::{NoMemory, Text};

/// How many sessions a run has.
const MOST: usize = 16;

/// Makes at most so many steps of the session of a name, and tells how many.
#[tactic(auto, using(crate::proofs::Growing::adds_on, crate::proofs::Growing::stays))]
pub(crate) fn step<N: Nodes>(
    sessions: &mut Sessions,
    nodes: &mut N,
    name: &Text,
    most: u32,
) -> Result<Own, NoMemory>
    requires { 1 ≤ most }
    ensures steps { IfOk result (λ own. Steps (running sessions.old (N.lists nodes.old)) name.now most own (running sessions.new (N.lists nodes.new))) }
    ensures adds { Adds sessions.old.lines.items sessions.new.lines.items }
    ensures names { Adds sessions.old.names.items sessions.new.names.items }
    ensures goes { Onward N.goes nodes.old nodes.new }
{
    let place = sessions.place_of(name)?;
    if place >= MOST {
        return Ok(own_line(place, Reply::Full));
    }
    let made = sessions.advance(nodes, name, most)?;
    Ok(own_line(place, reply_of(made)))
}

fn reply_of(made: u32) -> Reply
    ensures { result ≡ made_reply made }
{
    if made == 0 {
        Reply::NothingGiven
    } else {
        Reply::Stepped(made)
    }
}

/// A line of the session at a place that answers no statement.
fn own_line(place: usize, reply: Reply) -> Own
    ensures { result ≡ own_of.Line (line_of place None reply) }
{
    Own::Line(Line {
        session: Some(place as u64),
        work: None,
        reply,
    })
}
