// What a line says.
ghost use Rattle.std.specs.Prelude.{◌≡◌, ℕ, ◌≤◌, length, IfOk, IsErrOf};
ghost use Rattle.hb_sqlparse.specs.Grammar.{IsLine};
ghost use Rattle.hb_sqlparse.specs.Lines.{tokens_in, IsRefused};
ghost use Rattle.hb_sqlparse.specs.PlainLines.{IsPlainItem};

use crate::fault::ParseFault;
use crate::laws::{lines_are_plain, lines_are_read};
use crate::queue::Queue;
use hb_model::Item;
use hb_sqlsteps::Line;
use hb_sqltoken::{Placed, places_ascend_within_the_line, tokens};
use std::alloc::Global;

/// What a line of at most 8,192 bytes says.
pub fn parse(alloc: Global, line: &[u8]) -> Result<Item, ParseFault>
    requires { length line.now ≤ 8192 }
    ensures said { IfOk result (λ item. IsLine item (tokens_in line.now)) }
    ensures plain { IfOk result IsPlainItem }
    ensures syntax { (byte : ℕ) → IsErrOf result (ParseFault.Syntax byte) → IsRefused line.now byte }
{
    lines_are_read();
    lines_are_plain();
    places_ascend_within_the_line();
    let mut left = Queue::of(alloc, tokens(alloc, line)?)?;
    let mut reached = Line::Start;
    while let Some(placed) = left.pop() {
        let Placed { place, token } = placed;
        match reached.step(alloc, token)? {
            Some(next) => {
                reached = next;
            }
            None => {
                return Err(ParseFault::Syntax { byte: place + 1 });
            }
        }
    }
    match reached.finish(alloc)? {
        Some(item) => Ok(item.into_inner()),
        None => Err(ParseFault::Syntax {
            byte: line.len() as u32 + 1,
        }),
    }
}
