// A statement or a line of pdrbal is given, and runs on where it isn't held.
ghost use Rattle.std.specs.Prelude.{◌≡◌, ◌&&◌, not, IfOk, OnOk};
ghost use Rattle.hb_model.specs.Plain.{IsPlain};
ghost use Rattle.hb_node.specs.Lists.{Onward};
ghost use Rattle.hb_stepper.specs.Adding.{Adds};
ghost use Rattle.hb_stepper.specs.Running.{running};
ghost use Rattle.hb_serve.specs.declared.own.Own.TheVariants as own_of;
ghost use Rattle.hb_serve.specs.Doing.{Gave, GoesOn, IsTaken};

use crate::own::Own;
use hb_model::Work;
use hb_node::Nodes;
use hb_stepper::{Sessions, StepFault};
use hb_types::{NoMemory, Text};

/// Gives a statement or a line of pdrbal to the session of a name. One that is taken and isn't held runs to its end or to a wait.
#[tactic(auto, using(crate::proofs::Growing::adds_on, crate::proofs::Growing::stays))]
pub(crate) fn give<N: Nodes>(
    sessions: &mut Sessions,
    nodes: &mut N,
    name: &Text,
    work: Work,
    held: bool,
) -> Result<Own, NoMemory>
    requires plain { IsPlain work }
    ensures nothing { IfOk result (λ own. own ≡ own_of.Nothing) }
    ensures gave { IfOk result (λ own. Gave (running sessions.old (N.lists nodes.old)) name.now work held (running sessions.new (N.lists nodes.new))) }
    ensures adds { Adds sessions.old.lines.items sessions.new.lines.items }
    ensures names { Adds sessions.old.names.items sessions.new.names.items }
    ensures goes { Onward N.goes nodes.old nodes.new }
{
    let taken = is_taken(sessions.give(name, work, held))?;
    run_on(sessions, nodes, name, goes_on(taken, held))?;
    Ok(Own::Nothing)
}

/// Whether what is given was taken. The line of a refusal is shown already.
fn is_taken(given: Result<(), StepFault>) -> Result<bool, NoMemory>
    ensures { IfOk result (λ taken. IsTaken taken given) }
{
    match given {
        Ok(()) => Ok(true),
        Err(StepFault::Full) => Ok(false),
        Err(StepFault::Busy) => Ok(false),
        Err(StepFault::InTransaction) => Ok(false),
        Err(StepFault::NoTransaction) => Ok(false),
        Err(StepFault::NoMemory) => Err(NoMemory),
    }
}

/// What is held moves by STEP alone.
fn goes_on(taken: bool, held: bool) -> bool
    ensures { result ≡ (taken && not held) }
{
    taken && !held
}

/// Runs the statement or the line of a session to its end or to a wait, where it goes on.
#[tactic(auto, using(crate::proofs::Growing::adds_nothing, crate::proofs::Growing::stays))]
fn run_on<N: Nodes>(
    sessions: &mut Sessions,
    nodes: &mut N,
    name: &Text,
    goes_on: bool,
) -> Result<(), NoMemory>
    ensures on { OnOk result (GoesOn goes_on name.now (running sessions.old (N.lists nodes.old)) (running sessions.new (N.lists nodes.new))) }
    ensures adds { Adds sessions.old.lines.items sessions.new.lines.items }
    ensures names { Adds sessions.old.names.items sessions.new.names.items }
    ensures goes { Onward N.goes nodes.old nodes.new }
{
    if goes_on {
        sessions.finish(nodes, name)?;
    }
    Ok(())
}
