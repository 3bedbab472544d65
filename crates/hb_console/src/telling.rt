// The line of a system that isn't opened.
ghost use Rattle.std.specs.Prelude.{◌≡◌, ◌≤◌};
ghost use Rattle.hb_console.specs.Telling.{Tells, behind};

use hb_acts::{Stop, put_line};
use hb_edge::{Clock, Sink};
use hb_model::Line;
use std::alloc::Global;

/// The status behind a put: that of want of memory where the text couldn't be had.
fn status_behind(put: Result<(), Stop>, status: u8) -> u8
    ensures { result ≡ behind put status }
{
    match put {
        Err(Stop::Memory) => 7,
        _ => status,
    }
}

/// Puts the line of a refusal, if there is one. The status; that of want of memory where the line's text can't be had.
pub(crate) fn tell<O: Sink>(
    alloc: Global,
    sink: &mut O,
    clock: &mut Clock,
    told: &Option<Line>,
    status: u8,
) -> u8
    ensures told { Tells told.now (O.held sink.old) (O.held sink.new) (O.faults sink.old) (O.faults sink.new) status result }
    ensures count { O.faults sink.old ≤ O.faults sink.new }
    ensures clock { clock.old ≤ clock.new }
{
    match told {
        None => status,
        Some(line) => {
            let put = put_line(alloc, sink, clock, line, &[]);
            status_behind(put, status)
        }
    }
}
