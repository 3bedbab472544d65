// The texts of lines, put one by one.
ghost use Rattle.std.specs.Prelude.{◌≡◌, ◌≤◌, ◌++◌, ℕ, length, drop, is_some, IfOk, IfErr, OnOk, OnErr};
ghost use Rattle.std.specs.List.{flat_map};
ghost use Rattle.std.specs.String.{string_bytes};
ghost use Rattle.hb_edge.specs.Streams.{with_end};
ghost use Rattle.hb_print.specs.Texts.{text_of};
ghost use Rattle.hb_acts.specs.Acts.{count_line, not_built_text, own_text};
ghost use Rattle.hb_acts.specs.Putting.{PutsFront};
ghost use Rattle.hb_acts.specs.Stops.{StopsBy};

use crate::Stop;
use hb_edge::{Clock, Failed, Sink};
use hb_model::{Line, Reply};
use hb_print::print;
use hb_serve::Own;
use hb_types::{NoMemory, Text};
use std::alloc::Global;

/// Puts bytes.
pub(crate) fn put<O: Sink>(sink: &mut O, clock: &mut Clock, bytes: &[u8]) -> Result<(), Stop>
    ensures all { OnOk result (O.held sink.new ≡ with_end bytes.now (O.held sink.old)) }
    ensures part { OnErr result (PutsFront (O.held sink.old) (O.held sink.new) bytes.now) }
    ensures memory { IfErr result (λ stop. stop ≡ Stop.Memory → O.held sink.new ≡ O.held sink.old) }
    ensures clock { clock.old ≤ clock.new }
    ensures cause { StopsBy Stop.Sink (O.faults sink.old) (O.faults sink.new) result }
{
    match sink.put(clock, bytes) {
        Ok(()) => Ok(()),
        Err(Failed) => Err(Stop::Sink),
    }
}

/// Puts the text of a line.
pub fn put_line<O: Sink>(
    alloc: Global,
    sink: &mut O,
    clock: &mut Clock,
    line: &Line,
    names: &[Text],
) -> Result<(), Stop>
    ensures all { OnOk result (O.held sink.new ≡ with_end (text_of names.now line.now) (O.held sink.old)) }
    ensures part { OnErr result (PutsFront (O.held sink.old) (O.held sink.new) (text_of names.now line.now)) }
    ensures memory { IfErr result (λ stop. stop ≡ Stop.Memory → O.held sink.new ≡ O.held sink.old) }
    ensures clock { clock.old ≤ clock.new }
    ensures cause { StopsBy Stop.Sink (O.faults sink.old) (O.faults sink.new) result }
{
    let text = print(alloc, line, names)?;
    put(sink, clock, text.as_slice())
}

/// Puts the texts of lines.
pub fn put_lines<O: Sink>(
    alloc: Global,
    sink: &mut O,
    clock: &mut Clock,
    lines: &[Line],
    names: &[Text],
) -> Result<(), Stop>
    ensures all { OnOk result (O.held sink.new ≡ with_end (flat_map (text_of names.now) lines.now) (O.held sink.old)) }
    ensures part { OnErr result (PutsFront (O.held sink.old) (O.held sink.new) (flat_map (text_of names.now) lines.now)) }
    ensures clock { clock.old ≤ clock.new }
    ensures cause { StopsBy Stop.Sink (O.faults sink.old) (O.faults sink.new) result }
{
    for line in lines {
        put_line(alloc, sink, clock, line, names)?;
    }
    Ok(())
}

#[tactic(auto, unfolding(crate::specs::Acts::not_built_text))]
fn not_built_text(alloc: Global, number: u64) -> Result<String, NoMemory>
    ensures { IfOk result (λ text. string_bytes text ≡ not_built_text number) }
{
    Ok(format!(in alloc; "LINE {number} NOT BUILT\n")?)
}

/// Puts the line that a line of the script has of its own.
pub(crate) fn put_own<O: Sink>(
    alloc: Global,
    sink: &mut O,
    clock: &mut Clock,
    own: Own,
    number: u64,
    names: &[Text],
) -> Result<(), Stop>
    ensures all { OnOk result (O.held sink.new ≡ with_end (own_text names.now number own) (O.held sink.old)) }
    ensures part { OnErr result (PutsFront (O.held sink.old) (O.held sink.new) (own_text names.now number own)) }
    ensures clock { clock.old ≤ clock.new }
    ensures cause { StopsBy Stop.Sink (O.faults sink.old) (O.faults sink.new) result }
{
    match own {
        Own::Nothing => Ok(()),
        Own::Line(line) => put_line(alloc, sink, clock, &line, names),
        Own::NotBuilt => {
            let text = not_built_text(alloc, number)?;
            put(sink, clock, text.as_bytes())
        }
    }
}

/// Puts the count of a script's lines.
pub(crate) fn put_count<O: Sink>(
    alloc: Global,
    sink: &mut O,
    clock: &mut Clock,
    count: u64,
    names: &[Text],
) -> Result<(), Stop>
    ensures all { OnOk result (O.held sink.new ≡ with_end (text_of names.now (count_line count)) (O.held sink.old)) }
    ensures part { OnErr result (PutsFront (O.held sink.old) (O.held sink.new) (text_of names.now (count_line count))) }
    ensures clock { clock.old ≤ clock.new }
    ensures cause { StopsBy Stop.Sink (O.faults sink.old) (O.faults sink.new) result }
{
    let line = Line {
        session: None,
        work: None,
        reply: Reply::Lines(count),
    };
    put_line(alloc, sink, clock, &line, names)
}
