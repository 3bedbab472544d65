// A fuse is armed.
ghost use Rattle.std.specs.Prelude.{◌≡◌, ◌-◌};
ghost use Rattle.hb_server.specs.Law.{armed_in};

use crate::state::State;
use hb_edge::{Disk, Fused};
use hb_store::Store;

/// Arms the fuse of the log disk or of the area disk.
pub(crate) fn arm<D: Disk, S: Store>(state: &mut State<Fused<D>, S>, area: bool, k: u32)
    ensures { state.new ≡ armed_in area (k - 1) state.old }
{
    match state {
        State::Down(rest) => {
            if area {
                rest.area.arm(k as u64);
            } else {
                rest.log.arm(k as u64);
            }
        }
        State::Up(serves) => {
            if area {
                serves.area.arm(k as u64);
            } else {
                serves.running.log.arm(k as u64);
            }
        }
        State::Away => {}
    }
}
