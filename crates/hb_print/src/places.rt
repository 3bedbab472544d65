// How nodes, paths and modes are written.
ghost use Rattle.std.specs.Prelude.{◌≡◌, IfOk, string_bytes};
ghost use Rattle.hb_print.specs.Places.{node_text, space_text, place_text, path_text, mode_text};

use hb_types::{Mode, NoMemory, NodeName, Path, Place, Space};
use std::alloc::Global;

#[tactic(auto, unfolding(crate::specs::Places::node_text))]
pub(crate) fn node_text(alloc: Global, node: NodeName) -> Result<String, NoMemory>
    ensures { IfOk result (λ s. string_bytes s ≡ node_text node) }
{
    match node.0 {
        0 => Ok(format!(in alloc; "fes1")?),
        1 => Ok(format!(in alloc; "ds")?),
        10 => Ok(format!(in alloc; "mgr")?),
        n => {
            let server = n - 1;
            Ok(format!(in alloc; "bes{server}")?)
        }
    }
}

#[tactic(auto, unfolding(crate::specs::Places::space_text), using(crate::proofs::Pieces::pieces))]
pub(crate) fn space_text(alloc: Global, space: Space) -> Result<String, NoMemory>
    ensures { IfOk result (λ s. string_bytes s ≡ space_text space) }
{
    let Space { area, table } = space;
    Ok(format!(in alloc; "{area}.{table}")?)
}

#[tactic(auto, unfolding(crate::specs::Places::place_text), using(crate::proofs::Pieces::pieces))]
pub(crate) fn place_text(alloc: Global, place: Place) -> Result<String, NoMemory>
    ensures { IfOk result (λ s. string_bytes s ≡ place_text place) }
{
    let Place { space, group, key } = place;
    let space = space_text(alloc, space)?;
    Ok(format!(in alloc; "{space} {group} {key}")?)
}

#[tactic(auto, unfolding(crate::specs::Places::path_text), using(crate::proofs::Pieces::pieces))]
pub(crate) fn path_text(alloc: Global, path: Path) -> Result<String, NoMemory>
    ensures { IfOk result (λ s. string_bytes s ≡ path_text path) }
{
    match path {
        Path::Whole(space) => {
            let space = space_text(alloc, space)?;
            Ok(format!(in alloc; "SPACE {space}")?)
        }
        Path::Group(space, group) => {
            let space = space_text(alloc, space)?;
            Ok(format!(in alloc; "GROUP {space} {group}")?)
        }
        Path::Key(place) => {
            let place = place_text(alloc, place)?;
            Ok(format!(in alloc; "KEY {place}")?)
        }
    }
}

#[tactic(auto, unfolding(crate::specs::Places::mode_text))]
pub(crate) fn mode_text(mode: Mode) -> &'static str
    ensures { result.now ≡ mode_text mode }
{
    match mode {
        Mode::IS => "IS",
        Mode::IX => "IX",
        Mode::S => "S",
        Mode::SIX => "SIX",
        Mode::X => "X",
    }
}
