// The way along kept edges to the transaction that waits.
ghost use Rattle.std.specs.Prelude.{◌≡◌, ◌∷◌, [], IfOk};
ghost use Rattle.hb_board.specs.Searches.{Finds};

use crate::board::Board;
use crate::registry::is_live;
use hb_types::{Edge, NoMemory, Tx};
use std::collections::BTreeSet;

/// The transaction that waits, those from whose waits it isn't reached, and the way so far.
#[derive(Drop)]
pub struct Search {
    pub target: Tx,
    pub cleared: BTreeSet<u64>,
    pub path: Vec<Edge>,
}

impl Board {
    /// Looks for the first of the edges from which the target is reached, at most so many edges deep.
    #[cycle(search)]
    pub(crate) fn find_way(
        &self,
        edges: &[Edge],
        search: &mut Search,
        depth: usize,
    ) -> Result<bool, NoMemory>
        ensures { IfOk result (Finds self.now edges.now search.old search.new) }
    {
        for edge in edges {
            if self.leads(edge, search, depth)? {
                return Ok(true);
            }
        }
        Ok(false)
    }

    /// Whether the target is reached from an edge.
    #[cycle(search)]
    fn leads(&self, edge: &Edge, search: &mut Search, depth: usize) -> Result<bool, NoMemory>
        ensures { IfOk result (Finds self.now (edge.now ∷ []) search.old search.new) }
    {
        if !is_live(&self.known, edge) {
            return Ok(false);
        }
        if edge.holder.0 == search.target.0 {
            search.path.push(*edge)?;
            return Ok(true);
        }
        if search.cleared.contains(&edge.holder.0) {
            return Ok(false);
        }
        if depth == 0 {
            return Err(NoMemory);
        }
        let length = search.path.len();
        search.path.push(*edge)?;
        if self.find_way(self.kept(edge.holder), search, depth - 1)? {
            return Ok(true);
        }
        search.path.truncate(length);
        search.cleared.insert(edge.holder.0)?;
        Ok(false)
    }
}
