// What one line of a script does.
ghost use Rattle.std.specs.Prelude.{◌≡◌, IfOk};
ghost use Rattle.hb_node.specs.Lists.{Onward};
ghost use Rattle.hb_sqlparse.specs.PlainLines.{IsPlainItem};
ghost use Rattle.hb_lines.specs.Saying.{IsPlainSaid};
ghost use Rattle.hb_stepper.specs.Adding.{Adds};
ghost use Rattle.hb_stepper.specs.Running.{running};
ghost use Rattle.hb_serve.specs.Doing.{Does, DoesItem, syntax_line as line_of_syntax};

use crate::giving::give;
use crate::own::Own;
use crate::stepping::step;
use hb_lines::Said;
use hb_model::{Item, Line, Reply};
use hb_node::Nodes;
use hb_stepper::Sessions;
use hb_types::NoMemory;

/// Does what a line of a script says, and returns the line that it has of its own: the caller shows it behind the lines that the
/// sessions have now.
#[tactic(auto, using(crate::proofs::Growing::adds_nothing, crate::proofs::Growing::stays))]
pub fn do_line<N: Nodes>(
    sessions: &mut Sessions,
    nodes: &mut N,
    number: u64,
    said: Said,
) -> Result<Own, NoMemory>
    requires plain { IsPlainSaid said }
    ensures done { IfOk result (λ own. Does number said (running sessions.old (N.lists nodes.old)) own (running sessions.new (N.lists nodes.new))) }
    ensures adds { Adds sessions.old.lines.items sessions.new.lines.items }
    ensures names { Adds sessions.old.names.items sessions.new.names.items }
    ensures goes { Onward N.goes nodes.old nodes.new }
{
    match said {
        Said::Item(item) => do_item(sessions, nodes, item),
        Said::Syntax(byte) => Ok(Own::Line(syntax_line(number, byte))),
    }
}

#[tactic(auto, using(crate::proofs::Growing::adds_nothing, crate::proofs::Growing::stays))]
fn do_item<N: Nodes>(sessions: &mut Sessions, nodes: &mut N, item: Item) -> Result<Own, NoMemory>
    requires plain { IsPlainItem item }
    ensures done { IfOk result (λ own. DoesItem item (running sessions.old (N.lists nodes.old)) own (running sessions.new (N.lists nodes.new))) }
    ensures adds { Adds sessions.old.lines.items sessions.new.lines.items }
    ensures names { Adds sessions.old.names.items sessions.new.names.items }
    ensures goes { Onward N.goes nodes.old nodes.new }
{
    match item {
        Item::Blank | Item::Barrier => Ok(Own::Nothing),
        Item::Give {
            session,
            work,
            held,
        } => give(sessions, nodes, &session, work, held),
        Item::Step { session, most } => step(sessions, nodes, &session, most),
        Item::Stop { .. } | Item::Arm { .. } | Item::Start { .. } | Item::Sync { .. } => {
            Ok(Own::NotBuilt)
        }
    }
}

fn syntax_line(number: u64, byte: u32) -> Line
    ensures { result ≡ line_of_syntax number byte }
{
    Line {
        session: None,
        work: None,
        reply: Reply::Syntax(number, byte),
    }
}
