// The coordinator with its trail.
ghost use Rattle.std.specs.Prelude.{◌≡◌, ◌↔◌, ◌≤◌, [], ℕ, true, is_some, List};
ghost use Rattle.hb_edge.specs.Images.{Image};
ghost use Rattle.hb_types.specs.declared.change.LogItem.{LogItem};
ghost use Rattle.hb_runs.specs.Coordinator.{stopped_at};
ghost use Rattle.hb_node.specs.Laws.{deciding};
ghost use Rattle.hb_coord.specs.Law.{content_in, ends_in, faults_in, last_in, left_in};
ghost use Rattle.hb_coord.specs.Standing.{IsLog};
ghost use Rattle.hb_front.specs.Fronting.{Explains};

use hb_coord::Coordinator;
use hb_edge::Disk;
use hb_trail::Trail;
use hb_types::TrailEntry;
use std::alloc::Global;

/// The front end. Its trail has room for the Aborts and the Stop that are to come.
#[derive(Drop)]
pub struct Front<D: Disk> {
    pub(crate) coordinator: Coordinator<D>,
    pub(crate) trail: Trail,
    pub(crate) alloc: Global,
    ghost has_room: { ends_in coordinator.state ≤ trail.spare },
}

impl<D: Disk> Front<D> {
    /// A stopped one.
    pub fn new(alloc: Global, log: D) -> Front<D>
        ensures explained { (items : List LogItem) → is_some (D.content log) ≡ true → ((image : Image) → D.left log (D.last log) image → IsLog image items) → Explains D.content D.left D.last result.coordinator.state (deciding (stopped_at items)) [] }
        ensures trail { result.trail.entries ≡ [] }
        ensures left { (m : ℕ) (image : Image) → left_in D.left result.coordinator.state m image ↔ D.left log m image }
        ensures last { last_in D.last result.coordinator.state ≡ D.last log }
        ensures faults { faults_in D.faults result.coordinator.state ≡ D.faults log }
    {
        Front {
            coordinator: Coordinator::new(alloc, log),
            trail: Trail::new(alloc),
            alloc,
        }
    }

    /// The requests that it answered.
    pub fn entries(&self) -> &[TrailEntry]
        ensures { result.now ≡ self.now.trail.entries }
    {
        self.trail.entries()
    }

    pub fn into_disk(self) -> D
        ensures content { D.content result ≡ content_in D.content self.coordinator.state }
        ensures left { (m : ℕ) (image : Image) → D.left result m image ↔ left_in D.left self.coordinator.state m image }
    {
        let Front {
            coordinator,
            trail: _,
            alloc: _,
        } = self;
        coordinator.into_disk()
    }
}
