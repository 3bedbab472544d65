// The acts of a script: each is done on the caller's clock, and then its lines are put.
ghost use Rattle.std.specs.Prelude.{◌≡◌, ◌≤◌, [], ◌∷◌, drop, length, IfOk, OnOk, OnErr};
ghost use Rattle.std.specs.List.{flat_map};
ghost use Rattle.hb_edge.specs.Streams.{with_end};
ghost use Rattle.hb_print.specs.Texts.{text_of};
ghost use Rattle.hb_acts.specs.Putting.{PutsFront};
ghost use Rattle.hb_node.specs.Lists.{Onward};
ghost use Rattle.hb_lines.specs.Saying.{IsPlainSaid};
ghost use Rattle.hb_serve.specs.Doing.{Does};
ghost use Rattle.hb_stepper.specs.Adding.{Adds};
ghost use Rattle.hb_stepper.specs.Closing.{Closed};
ghost use Rattle.hb_stepper.specs.Running.{running};
ghost use Rattle.hb_stepper.specs.Steps.{Resumed};
ghost use Rattle.hb_acts.specs.Acts.{does, resumes, closes, ends, Reached, Halted};
ghost use Rattle.hb_acts.specs.Stops.{StopsBy};

use crate::Stop;
use crate::putting::{put_count, put_lines, put_own};
use hb_edge::{Clock, Sink};
use hb_lines::Said;
use hb_node::{Node, Nodes};
use hb_reach::Reach;
use hb_serve::{Own, do_line};
use hb_stepper::Sessions;
use hb_types::NoMemory;
use std::alloc::Global;

/// What a line says is done.
fn do_said<N: Node, M: Node>(
    sessions: &mut Sessions,
    nodes: &mut Reach<N, M>,
    clock: &mut Clock,
    number: u64,
    said: Said,
) -> Result<Own, NoMemory>
    requires { IsPlainSaid said }
    ensures done { IfOk result (λ own. Does number said (running sessions.old (⟦<Reach<N, M> as Nodes>⟧.lists nodes.old)) own (running sessions.new (⟦<Reach<N, M> as Nodes>⟧.lists nodes.new))) }
    ensures adds { Adds sessions.old.lines.items sessions.new.lines.items }
    ensures names { Adds sessions.old.names.items sessions.new.names.items }
    ensures goes { Onward (⟦<Reach<N, M> as Nodes>⟧.goes) nodes.old nodes.new }
    ensures clock { clock.old ≤ clock.new }
    ensures behind { nodes.new.clock ≤ clock.new }
{
    nodes.raise(*clock);
    let own = do_line(sessions, nodes, number, said);
    *clock = nodes.clock();
    own
}

/// The sessions that wait are asked.
fn resume<N: Node, M: Node>(
    sessions: &mut Sessions,
    nodes: &mut Reach<N, M>,
    clock: &mut Clock,
) -> Result<(), NoMemory>
    ensures done { OnOk result (Resumed (running sessions.old (⟦<Reach<N, M> as Nodes>⟧.lists nodes.old)) (running sessions.new (⟦<Reach<N, M> as Nodes>⟧.lists nodes.new))) }
    ensures adds { Adds sessions.old.lines.items sessions.new.lines.items }
    ensures names { Adds sessions.old.names.items sessions.new.names.items }
    ensures goes { Onward (⟦<Reach<N, M> as Nodes>⟧.goes) nodes.old nodes.new }
    ensures clock { clock.old ≤ clock.new }
    ensures behind { nodes.new.clock ≤ clock.new }
{
    nodes.raise(*clock);
    let done = sessions.resume_waiting(nodes);
    *clock = nodes.clock();
    done
}

/// The sessions come to the script's end.
fn close<N: Node, M: Node>(
    sessions: &mut Sessions,
    nodes: &mut Reach<N, M>,
    clock: &mut Clock,
) -> Result<(), NoMemory>
    ensures done { OnOk result (Closed (running sessions.old (⟦<Reach<N, M> as Nodes>⟧.lists nodes.old)) (running sessions.new (⟦<Reach<N, M> as Nodes>⟧.lists nodes.new))) }
    ensures adds { Adds sessions.old.lines.items sessions.new.lines.items }
    ensures names { Adds sessions.old.names.items sessions.new.names.items }
    ensures goes { Onward (⟦<Reach<N, M> as Nodes>⟧.goes) nodes.old nodes.new }
    ensures clock { clock.old ≤ clock.new }
    ensures behind { nodes.new.clock ≤ clock.new }
{
    nodes.raise(*clock);
    let done = sessions.close_all(nodes);
    *clock = nodes.clock();
    done
}

/// Puts the lines of the sessions from a place on.
fn put_since<O: Sink>(
    alloc: Global,
    sink: &mut O,
    clock: &mut Clock,
    sessions: &Sessions,
    place: usize,
) -> Result<(), Stop>
    requires { place ≤ length sessions.now.lines.items }
    ensures all { OnOk result (O.held sink.new ≡ with_end (flat_map (text_of sessions.now.names.items) (drop place sessions.now.lines.items)) (O.held sink.old)) }
    ensures part { OnErr result (PutsFront (O.held sink.old) (O.held sink.new) (flat_map (text_of sessions.now.names.items) (drop place sessions.now.lines.items))) }
    ensures clock { clock.old ≤ clock.new }
    ensures cause { StopsBy Stop.Sink (O.faults sink.old) (O.faults sink.new) result }
{
    put_lines(
        alloc,
        sink,
        clock,
        &sessions.transcript()[place..],
        sessions.names(),
    )
}

/// Does a line of the script, and puts what it adds.
fn act_line<O: Sink, N: Node, M: Node>(
    alloc: Global,
    sessions: &mut Sessions,
    nodes: &mut Reach<N, M>,
    sink: &mut O,
    clock: &mut Clock,
    number: u64,
    said: Said,
) -> Result<(), Stop>
    requires { IsPlainSaid said }
    ensures done { OnOk result (Reached (running sessions.old (⟦<Reach<N, M> as Nodes>⟧.lists nodes.old)) (does number said ∷ []) (O.held sink.old) (running sessions.new (⟦<Reach<N, M> as Nodes>⟧.lists nodes.new)) (O.held sink.new)) }
    ensures part { OnErr result (Halted (running sessions.old (⟦<Reach<N, M> as Nodes>⟧.lists nodes.old)) (does number said ∷ []) (O.held sink.old) (running sessions.new (⟦<Reach<N, M> as Nodes>⟧.lists nodes.new)) (O.held sink.new)) }
    ensures goes { Onward (⟦<Reach<N, M> as Nodes>⟧.goes) nodes.old nodes.new }
    ensures clock { clock.old ≤ clock.new }
    ensures behind { nodes.new.clock ≤ clock.new }
    ensures cause { StopsBy Stop.Sink (O.faults sink.old) (O.faults sink.new) result }
{
    let place = sessions.transcript().len();
    let own = do_said(sessions, nodes, clock, number, said)?;
    put_since(alloc, sink, clock, sessions, place)?;
    put_own(alloc, sink, clock, own, number, sessions.names())
}

/// Asks the sessions that wait, and puts what they add.
fn act_resume<O: Sink, N: Node, M: Node>(
    alloc: Global,
    sessions: &mut Sessions,
    nodes: &mut Reach<N, M>,
    sink: &mut O,
    clock: &mut Clock,
) -> Result<(), Stop>
    ensures done { OnOk result (Reached (running sessions.old (⟦<Reach<N, M> as Nodes>⟧.lists nodes.old)) (resumes ∷ []) (O.held sink.old) (running sessions.new (⟦<Reach<N, M> as Nodes>⟧.lists nodes.new)) (O.held sink.new)) }
    ensures part { OnErr result (Halted (running sessions.old (⟦<Reach<N, M> as Nodes>⟧.lists nodes.old)) (resumes ∷ []) (O.held sink.old) (running sessions.new (⟦<Reach<N, M> as Nodes>⟧.lists nodes.new)) (O.held sink.new)) }
    ensures goes { Onward (⟦<Reach<N, M> as Nodes>⟧.goes) nodes.old nodes.new }
    ensures clock { clock.old ≤ clock.new }
    ensures behind { nodes.new.clock ≤ clock.new }
    ensures cause { StopsBy Stop.Sink (O.faults sink.old) (O.faults sink.new) result }
{
    let place = sessions.transcript().len();
    resume(sessions, nodes, clock)?;
    put_since(alloc, sink, clock, sessions, place)
}

/// Brings the sessions to the script's end, and puts what they add.
fn act_close<O: Sink, N: Node, M: Node>(
    alloc: Global,
    sessions: &mut Sessions,
    nodes: &mut Reach<N, M>,
    sink: &mut O,
    clock: &mut Clock,
) -> Result<(), Stop>
    ensures done { OnOk result (Reached (running sessions.old (⟦<Reach<N, M> as Nodes>⟧.lists nodes.old)) (closes ∷ []) (O.held sink.old) (running sessions.new (⟦<Reach<N, M> as Nodes>⟧.lists nodes.new)) (O.held sink.new)) }
    ensures part { OnErr result (Halted (running sessions.old (⟦<Reach<N, M> as Nodes>⟧.lists nodes.old)) (closes ∷ []) (O.held sink.old) (running sessions.new (⟦<Reach<N, M> as Nodes>⟧.lists nodes.new)) (O.held sink.new)) }
    ensures goes { Onward (⟦<Reach<N, M> as Nodes>⟧.goes) nodes.old nodes.new }
    ensures clock { clock.old ≤ clock.new }
    ensures behind { nodes.new.clock ≤ clock.new }
    ensures cause { StopsBy Stop.Sink (O.faults sink.old) (O.faults sink.new) result }
{
    let place = sessions.transcript().len();
    close(sessions, nodes, clock)?;
    put_since(alloc, sink, clock, sessions, place)
}

/// Does a line of the script, and then the sessions that wait are asked.
pub(crate) fn serve<O: Sink, N: Node, M: Node>(
    alloc: Global,
    sessions: &mut Sessions,
    nodes: &mut Reach<N, M>,
    sink: &mut O,
    clock: &mut Clock,
    number: u64,
    said: Said,
) -> Result<(), Stop>
    requires { IsPlainSaid said }
    ensures done { OnOk result (Reached (running sessions.old (⟦<Reach<N, M> as Nodes>⟧.lists nodes.old)) (does number said ∷ resumes ∷ []) (O.held sink.old) (running sessions.new (⟦<Reach<N, M> as Nodes>⟧.lists nodes.new)) (O.held sink.new)) }
    ensures part { OnErr result (Halted (running sessions.old (⟦<Reach<N, M> as Nodes>⟧.lists nodes.old)) (does number said ∷ resumes ∷ []) (O.held sink.old) (running sessions.new (⟦<Reach<N, M> as Nodes>⟧.lists nodes.new)) (O.held sink.new)) }
    ensures goes { Onward (⟦<Reach<N, M> as Nodes>⟧.goes) nodes.old nodes.new }
    ensures clock { clock.old ≤ clock.new }
    ensures behind { nodes.new.clock ≤ clock.new }
    ensures cause { StopsBy Stop.Sink (O.faults sink.old) (O.faults sink.new) result }
{
    act_line(alloc, sessions, nodes, sink, clock, number, said)?;
    act_resume(alloc, sessions, nodes, sink, clock)
}

/// The script's end, and the count of its lines.
pub(crate) fn finish<O: Sink, N: Node, M: Node>(
    alloc: Global,
    sessions: &mut Sessions,
    nodes: &mut Reach<N, M>,
    sink: &mut O,
    clock: &mut Clock,
    count: u64,
) -> Result<(), Stop>
    ensures done { OnOk result (Reached (running sessions.old (⟦<Reach<N, M> as Nodes>⟧.lists nodes.old)) (closes ∷ ends count ∷ []) (O.held sink.old) (running sessions.new (⟦<Reach<N, M> as Nodes>⟧.lists nodes.new)) (O.held sink.new)) }
    ensures part { OnErr result (Halted (running sessions.old (⟦<Reach<N, M> as Nodes>⟧.lists nodes.old)) (closes ∷ ends count ∷ []) (O.held sink.old) (running sessions.new (⟦<Reach<N, M> as Nodes>⟧.lists nodes.new)) (O.held sink.new)) }
    ensures goes { Onward (⟦<Reach<N, M> as Nodes>⟧.goes) nodes.old nodes.new }
    ensures clock { clock.old ≤ clock.new }
    ensures behind { nodes.new.clock ≤ clock.new }
    ensures cause { StopsBy Stop.Sink (O.faults sink.old) (O.faults sink.new) result }
{
    act_close(alloc, sessions, nodes, sink, clock)?;
    put_count(alloc, sink, clock, count, sessions.names())
}
