// The tokens of a line, taken from the front.
ghost use Rattle.std.specs.Prelude.{◌≡◌, [], ◌∷◌, ◌++◌, reverse, IfOk, MatchOption};

use hb_sqltoken::Placed;
use hb_types::NoMemory;
use sqlite_items::Items;
use std::alloc::Global;
use std::marker::Model;

/// Tokens that contracts see as a list, the next one first.
#[derive(Drop)]
pub(crate) struct Queue {
    items: Items<Placed>,
}

impl Model for Queue {
    ghost use Rattle.std.specs.Prelude.{List, reverse};
    ghost use Rattle.hb_sqltoken.specs.declared.token.Placed.{Placed};

    ghost Value = { List Placed };

    ghost view = { λ q. reverse q.items };
}

impl Queue {
    pub(crate) fn of(alloc: Global, tokens: Items<Placed>) -> Result<Queue, NoMemory>
        ensures { IfOk result (λ q. q ≡ tokens) }
    {
        let mut left = tokens;
        let mut items = Items::new(alloc);
        while let Some(token) = left.pop() {
            items.push(token)?;
        }
        Ok(Queue { items })
    }

    pub(crate) fn pop(&mut self) -> Option<Placed>
        ensures { MatchOption result ((self.old ≡ []) × (self.new ≡ [])) (λ first. self.old ≡ first ∷ self.new) }
    {
        self.items.pop()
    }
}
