// What a line of a script says.
ghost use Rattle.std.specs.Prelude.{◌≡◌, ◌≤◌, ◌||◌, nat_eq, codes, length, IfOk};
ghost use Rattle.std.specs.List.{list_all, starts_with};
ghost use Rattle.hb_lines.specs.Saying.{Says, IsPlainSaid, is_idle as idle, most_bytes};
ghost use Rattle.hb_sqltoken.specs.Kinds.{is_blank as blank};

use crate::said::Said;
use hb_model::Item;
use hb_sqlparse::{ParseFault, parse};
use hb_types::NoMemory;
use std::alloc::Global;

#[tactic(auto, unfolding(hb_sqltoken::specs::Kinds::is_blank))]
fn is_blank(b: u8) -> bool
    ensures { result ≡ blank b }
{
    b == b' ' || b == b'\t'
}

fn is_all_blank(line: &[u8]) -> bool
    ensures { result ≡ list_all blank line.now }
{
    line.iter().all(|b| is_blank(*b))
}

const DASHES: &[u8] = b"--";

const HASH: &[u8] = b"#";

fn begins_a_comment(line: &[u8]) -> bool
    ensures { result ≡ (starts_with nat_eq line.now (codes "--") || starts_with nat_eq line.now (codes "#")) }
{
    line.starts_with(DASHES) || line.starts_with(HASH)
}

/// Whether a line has nothing to do: blanks alone, or a comment.
fn is_idle(line: &[u8]) -> bool
    ensures { result ≡ idle line.now }
{
    is_all_blank(line) || begins_a_comment(line)
}

/// What a line of at most 8,192 bytes says. A line of any bytes has its answer.
pub fn read_line(alloc: Global, line: &[u8]) -> Result<Said, NoMemory>
    requires { length line.now ≤ most_bytes }
    ensures says { IfOk result (Says line.now) }
    ensures plain { IfOk result IsPlainSaid }
{
    if is_idle(line) {
        return Ok(Said::Item(Item::Blank));
    }
    match parse(alloc, line) {
        Ok(item) => Ok(Said::Item(item)),
        Err(ParseFault::Syntax { byte }) => Ok(Said::Syntax(byte)),
        Err(ParseFault::NoMemory) => Err(NoMemory),
    }
}
