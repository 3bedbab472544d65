// How waiting edges are written.
ghost use Rattle.std.specs.Prelude.{◌≡◌, ◌++◌, OnOk, IfOk, codes, string_bytes};
ghost use Rattle.hb_print.specs.Places.{node_text, path_text, mode_text, edge_text, further_edges, edges_text};

use crate::owners::put_owner;
use crate::places::{mode_text, node_text, path_text};
use crate::put::put;
use hb_types::{Edge, NoMemory, Text};
use std::alloc::Global;

#[tactic(auto, using(crate::proofs::Pieces::pieces))]
fn wish_text(alloc: Global, edge: Edge) -> Result<String, NoMemory>
    ensures { IfOk result (λ s. string_bytes s ≡ codes " AT " ++ (node_text edge.node ++ (codes " " ++ (path_text edge.path ++ (codes " WANTS " ++ (mode_text edge.wanted ++ codes " FOR ")))))) }
{
    let node = node_text(alloc, edge.node)?;
    let path = path_text(alloc, edge.path)?;
    let wanted = mode_text(edge.wanted);
    Ok(format!(in alloc; " AT {node} {path} WANTS {wanted} FOR ")?)
}

#[tactic(auto, unfolding(crate::specs::Places::edge_text), using(crate::proofs::Pieces::pieces))]
fn put_edge(alloc: Global, out: &mut Vec<u8>, names: &[Text], edge: Edge) -> Result<(), NoMemory>
    ensures { OnOk result (out.new.items ≡ out.old.items ++ edge_text names.now edge) }
{
    let wish = wish_text(alloc, edge)?;
    put_owner(alloc, out, names, edge.waiter_owner)?;
    put(out, wish.as_bytes())?;
    put_owner(alloc, out, names, edge.holder_owner)?;
    put(out, b" ")?;
    put(out, mode_text(edge.held).as_bytes())?;
    Ok(())
}

fn put_further_edges(
    alloc: Global,
    out: &mut Vec<u8>,
    names: &[Text],
    edges: &[Edge],
) -> Result<(), NoMemory>
    ensures { OnOk result (out.new.items ≡ out.old.items ++ further_edges names.now edges.now) }
{
    for edge in edges {
        put(out, b"; ")?;
        put_edge(alloc, out, names, *edge)?;
    }
    Ok(())
}

#[tactic(auto, unfolding(crate::specs::Places::edges_text), using(crate::proofs::Pieces::pieces))]
pub(crate) fn put_edges(
    alloc: Global,
    out: &mut Vec<u8>,
    names: &[Text],
    edges: &[Edge],
) -> Result<(), NoMemory>
    ensures { OnOk result (out.new.items ≡ out.old.items ++ edges_text names.now edges.now) }
{
    if let [first, further @ ..] = edges {
        put_edge(alloc, out, names, *first)?;
        put_further_edges(alloc, out, names, further)?;
    }
    Ok(())
}
