// The top call.
ghost use Rattle.std.specs.Prelude.{◌≡◌, ◌≢◌, ◌≤◌, ◌+◌, ◌*◌, ◌↔◌, ℕ, IsTrue, length};
ghost use Rattle.hb_acts.specs.Outside.{seen};
ghost use Rattle.hb_acts.specs.Words.{IsRun};
ghost use Rattle.hb_system.specs.Opening.{HasFailed};
ghost use Rattle.hb_console.specs.Ends.{Ends};

use crate::system::{Ended, run_over};
use hb_acts::back_ends;
use hb_edge::{Clock, Disk, Sink, Source};
use hb_front::Front;
use hb_manager::Manager;
use hb_node::Node;
use hb_server::Server;
use hb_types::Text;
use hb_whole::Whole;
use std::alloc::Global;

/// Whether so many disks are those of a system of so many back ends.
fn are_disks_of(count: u8, disks: usize) -> bool
    requires { count ≤ 8 }
    ensures { IsTrue result ↔ ((1 ≤ count) × (disks ≡ 3 + 2 * count)) }
{
    count >= 1 && disks == 3 + 2 * (count as usize)
}

/// Does the command that the words name: `run -b N` over the disks of a front end, a dictionary server and N back ends.
pub fn console_run<S: Source, O: Sink, D: Disk>(
    alloc: Global,
    words: &[Text],
    source: &mut S,
    sink: &mut O,
    disks: Vec<D>,
    clock: &mut Clock,
) -> Ended<D>
    // Status 1 comes exactly where the words aren't `run -b N` or there aren't 3 + 2N disks, and then nothing is touched.
    ensures usage { (result.status ≢ 1) ↔ ((n : ℕ) × IsRun words.now n × (length disks.items ≡ 3 + 2 * n)) }
    ensures untouched { result.status ≡ 1 → (result.disks.items ≡ disks.items) × (source.new ≡ source.old) × (sink.new ≡ sink.old) × (clock.new ≡ clock.old) }

    // What stands at each other status.
    ensures disks { length result.disks.items ≡ length disks.items }
    ensures clock { clock.old ≤ clock.new }
    ensures ends { (n : ℕ) → IsRun words.now n → result.status ≢ 1 → Ends D.content D.left D.last D.faults
        (HasFailed D.left D.faults ⟦<Front<D> as Node>⟧.leaves ⟦<Server<D, Whole> as Node>⟧.leaves ⟦<Front<D> as Node>⟧.faults ⟦<Server<D, Whole> as Node>⟧.faults) clock.old clock.new n result.status
        (seen S.left S.faults O.held O.faults source.old sink.old)
        (seen S.left S.faults O.held O.faults source.new sink.new)
        disks.items result.disks.items }
{
    let count = back_ends(words);
    if !are_disks_of(count, disks.len()) {
        return Ended { status: 1, disks };
    }
    let manager = Manager::new(alloc);
    run_over::<S, O, D, Front<D>, Server<D, Whole>, Manager>(
        alloc, count, manager, source, sink, disks, clock,
    )
}
