// A script, line by line.
ghost use Rattle.std.specs.Prelude.{◌≡◌, ◌+◌, ◌≤◌, ◌<◌, length, IfOk, IfErr, IfSome, OnSome};
ghost use Rattle.hb_edge.specs.Streams.{with_front};
ghost use Rattle.hb_lines.specs.Next.{NextLine};
ghost use Rattle.hb_lines.specs.Saying.{IsPlainSaid};
ghost use Rattle.hb_node.specs.Lists.{Onward};
ghost use Rattle.hb_stepper.specs.Running.{running};
ghost use Rattle.hb_acts.specs.Outside.{seen};
ghost use Rattle.hb_acts.specs.Runs.{Runs};
ghost use Rattle.hb_acts.specs.Stops.{StopsReading};

use crate::Stop;
use crate::acts::{finish, serve};
use hb_edge::{Clock, Sink, Source};
use hb_lines::{LineReader, Said};
use hb_node::{Node, Nodes};
use hb_reach::Reach;
use hb_stepper::Sessions;
use std::alloc::Global;

/// What the next line of the script says, or none at its end.
fn next_line<S: Source>(
    alloc: Global,
    reader: &mut LineReader,
    source: &mut S,
) -> Result<Option<Said>, Stop>
    ensures next { IfOk result (λ found. NextLine found (with_front reader.old (S.left source.old)) (with_front reader.new (S.left source.new))) }
    ensures bound { IfOk result (λ found. OnSome found (length reader.new + S.bound source.new < length reader.old + S.bound source.old)) }
    ensures plain { IfOk result (λ found. IfSome found IsPlainSaid) }
    ensures cause { StopsReading (S.faults source.old) (S.faults source.new) (with_front reader.old (S.left source.old)) result }
{
    match reader.next_line(alloc, source) {
        Ok(found) => Ok(found),
        Err(fault) => Err(Stop::from(fault)),
    }
}

/// The number of the next line. There is none past the last u64.
fn number_after(number: u64) -> Result<u64, Stop>
    ensures next { IfOk result (λ n. n ≡ number + 1) }
    ensures memory { IfErr result (λ stop. stop ≡ Stop.Memory) }
{
    number.checked_add(1).ok_or(Stop::Memory)
}

/// Does the lines of the source to its end, and says how many there were.
pub fn run_script<S: Source, O: Sink, N: Node, M: Node>(
    alloc: Global,
    sessions: &mut Sessions,
    nodes: &mut Reach<N, M>,
    source: &mut S,
    sink: &mut O,
    clock: &mut Clock,
) -> Result<(), Stop>
    ensures runs { Runs (running sessions.old (⟦<Reach<N, M> as Nodes>⟧.lists nodes.old)) (running sessions.new (⟦<Reach<N, M> as Nodes>⟧.lists nodes.new))
        (seen S.left S.faults O.held O.faults source.old sink.old)
        (seen S.left S.faults O.held O.faults source.new sink.new)
        result }
    ensures clock { clock.old ≤ clock.new }
    ensures behind { nodes.old.clock ≤ clock.old → nodes.new.clock ≤ clock.new }
    ensures goes { Onward ⟦<Reach<N, M> as Nodes>⟧.goes nodes.old nodes.new }
{
    let mut reader = LineReader::new(alloc)?;
    let mut number: u64 = 0;
    'script: while let Some(said) = next_line(alloc, &mut reader, source)? {
        number = number_after(number)?;
        serve(alloc, sessions, nodes, sink, clock, number, said)?;
    }
    finish(alloc, sessions, nodes, sink, clock, number)
}
