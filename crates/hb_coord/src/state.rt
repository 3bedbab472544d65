// A coordinator that is up or down.
use crate::running::Running;
use hb_edge::{Disk, Fused};

/// A coordinator that is down has its disk, and one that is up its log.
#[derive(Drop)]
pub enum State<D: Disk> {
    Down(Fused<D>),
    Up(Running<Fused<D>>),
    /// Within a call.
    Away,
}
