// A server that is stopped or up.
use hb_edge::Disk;
use hb_force::Running;
use hb_store::Store;

/// The disks and the store of a stopped server.
#[derive(Drop)]
pub struct Resting<D: Disk, S: Store> {
    pub log: D,
    pub area: D,
    pub store: S,
}

/// A server that is up, and its area disk.
#[derive(Drop)]
pub struct Serving<D: Disk, S: Store> {
    pub running: Running<D, S>,
    pub area: D,
}

/// A server that is stopped or up.
#[derive(Drop)]
pub enum State<D: Disk, S: Store> {
    Down(Resting<D, S>),
    Up(Serving<D, S>),
    /// Within a call.
    Away,
}
