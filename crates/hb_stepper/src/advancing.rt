// STEP.
ghost use Rattle.std.specs.Prelude.{◌≡◌, IfOk, OnErr};
ghost use Rattle.hb_node.specs.Lists.{Onward};
ghost use Rattle.hb_stepper.specs.Adding.{Adds};
ghost use Rattle.hb_stepper.specs.Advancing.{Advanced, AdvancedInPart};
ghost use Rattle.hb_stepper.specs.Running.{running};

use crate::sessions::Sessions;
use hb_node::Nodes;
use hb_types::{NoMemory, Text};

impl Sessions {
    /// Makes so many steps of a session, or fewer where its statement or line ends or waits; how many.
    pub fn advance<N: Nodes>(
        &mut self,
        nodes: &mut N,
        name: &Text,
        most: u32,
    ) -> Result<u32, NoMemory>
        ensures advanced { IfOk result (λ count. Advanced (running self.old (N.lists nodes.old)) name.now most count (running self.new (N.lists nodes.new))) }
        ensures part { OnErr result (AdvancedInPart (running self.old (N.lists nodes.old)) name.now (running self.new (N.lists nodes.new))) }
        ensures adds { Adds self.old.lines.items self.new.lines.items }
        ensures names { Adds self.old.names.items self.new.names.items }
        ensures goes { Onward N.goes nodes.old nodes.new }
    {
        let place = self.place_of(name)?;
        if !self.is_busy(place) {
            return Ok(0);
        }
        let made = self.run(nodes, place, most as u64)?;
        Ok(made as u32)
    }
}
