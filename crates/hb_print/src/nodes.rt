// Replies that tell of a node.
ghost use Rattle.std.specs.Prelude.{◌≡◌, ◌++◌, IfOk, string_bytes};
ghost use Rattle.hb_print.specs.Places.{node_text};
ghost use Rattle.hb_print.specs.Replies.{node_line};

use crate::places::{node_text, place_text};
use hb_model::Reply;
use hb_types::{NoMemory, NodeName};
use std::alloc::Global;

fn before(alloc: Global, words: &str, node: NodeName) -> Result<String, NoMemory>
    ensures { IfOk result (λ s. string_bytes s ≡ words.now ++ node_text node) }
{
    let node = node_text(alloc, node)?;
    Ok(format!(in alloc; "{words}{node}")?)
}

fn behind(alloc: Global, node: NodeName, words: &str) -> Result<String, NoMemory>
    ensures { IfOk result (λ s. string_bytes s ≡ node_text node ++ words.now) }
{
    let node = node_text(alloc, node)?;
    Ok(format!(in alloc; "{node}{words}")?)
}

#[tactic(auto, unfolding(crate::specs::Replies::node_line), using(crate::proofs::Pieces::pieces))]
pub(crate) fn node_line(alloc: Global, reply: &Reply) -> Result<String, NoMemory>
    ensures { IfOk result (λ s. string_bytes s ≡ node_line reply.now) }
{
    match reply {
        Reply::Down(node) => Ok(before(alloc, "DOWN ", *node)?),
        Reply::Stopped(node) => Ok(before(alloc, "STOPPED ", *node)?),
        Reply::Lost(node) => Ok(before(alloc, "LOST ", *node)?),
        Reply::Fault(node) => Ok(before(alloc, "FAULT ", *node)?),
        Reply::Halted(node) => Ok(behind(alloc, *node, " HALTED")?),
        Reply::Up(node) => Ok(behind(alloc, *node, " UP")?),
        Reply::Synced(node) => Ok(behind(alloc, *node, " SYNCED")?),
        Reply::PointSpent(node) => Ok(behind(alloc, *node, " NUMBERS SPENT")?),
        Reply::AlreadyUp(node) => Ok(behind(alloc, *node, " ALREADY UP")?),
        Reply::AlreadyDown(node) => Ok(behind(alloc, *node, " ALREADY DOWN")?),
        Reply::Armed(node, k) => {
            let node = node_text(alloc, *node)?;
            Ok(format!(in alloc; "{node} ARMED {k}")?)
        }
        Reply::DamagedLog(node, place) => {
            let node = node_text(alloc, *node)?;
            Ok(format!(in alloc; "DAMAGED {node} LOG {place}")?)
        }
        Reply::DamagedArea(node, place) => {
            let node = node_text(alloc, *node)?;
            Ok(format!(in alloc; "DAMAGED {node} AREA {place}")?)
        }
        Reply::DamagedRow(node, row) => {
            let node = node_text(alloc, *node)?;
            let row = place_text(alloc, *row)?;
            Ok(format!(in alloc; "DAMAGED {node} ROW {row}")?)
        }
        _ => Ok(String::new(alloc)),
    }
}
