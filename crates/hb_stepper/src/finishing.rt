// A statement or a line of pdrbal that runs to its end or to a wait.
ghost use Rattle.std.specs.Prelude.{◌≡◌, OnOk};
ghost use Rattle.hb_node.specs.Lists.{Onward};
ghost use Rattle.hb_stepper.specs.Adding.{Adds};
ghost use Rattle.hb_stepper.specs.Finishing.{Finished};
ghost use Rattle.hb_stepper.specs.Running.{running};

use crate::sessions::Sessions;
use hb_node::Nodes;
use hb_types::{NoMemory, Text};

impl Sessions {
    /// Runs the statement or the line of a session to its end or to a wait, if it can go on.
    pub fn finish<N: Nodes>(&mut self, nodes: &mut N, name: &Text) -> Result<(), NoMemory>
        ensures finished { OnOk result (Finished (running self.old (N.lists nodes.old)) name.now (running self.new (N.lists nodes.new))) }
        ensures adds { Adds self.old.lines.items self.new.lines.items }
        ensures names { Adds self.old.names.items self.new.names.items }
        ensures goes { Onward N.goes nodes.old nodes.new }
    {
        let place = self.place_of(name)?;
        self.run_out(nodes, place)?;
        Ok(())
    }
}
