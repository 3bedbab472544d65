// The text of a line of a transcript.
ghost use Rattle.std.specs.Prelude.{◌≡◌, ◌++◌, OnOk, IfOk, map};
ghost use Rattle.std.specs.List.{flat_map};
ghost use Rattle.hb_print.specs.Replies.{last_line};
ghost use Rattle.hb_print.specs.Texts.{session_text, rows_of, row_line, with_session, text_of};

use crate::counts::count_line;
use crate::named::put_named_line;
use crate::nodes::node_line;
use crate::owners::put_name;
use crate::put::put;
use crate::records::record_text;
use crate::words::words;
use hb_model::{Line, Reply, Row};
use hb_types::{Bytes, NoMemory, Text};
use std::alloc::Global;

#[tactic(auto, unfolding(crate::specs::Texts::session_text), using(crate::proofs::Pieces::pieces))]
fn session_text(alloc: Global, names: &[Text], session: Option<u64>) -> Result<Vec<u8>, NoMemory>
    ensures { IfOk result (λ v. v.items ≡ session_text names.now session) }
{
    let mut out = Vec::new(alloc);
    if let Some(session) = session {
        put_name(&mut out, names, session)?;
        put(&mut out, b" ")?;
    }
    Ok(out)
}

#[tactic(auto, using(crate::proofs::Pieces::pieces))]
fn put_line(out: &mut Vec<u8>, session: &[u8], line: &[u8]) -> Result<(), NoMemory>
    ensures { OnOk result (out.new.items ≡ out.old.items ++ with_session session.now line.now) }
{
    put(out, session)?;
    put(out, line)?;
    put(out, b"\n")?;
    Ok(())
}

fn row_line(alloc: Global, row: &Row) -> Result<Vec<u8>, NoMemory>
    ensures { IfOk result (λ v. v.items ≡ row_line row.now) }
{
    let record = record_text(alloc, row.as_slice())?;
    let mut line = Vec::from_slice(alloc, b"ROW ")?;
    put(&mut line, record.as_slice())?;
    Ok(line)
}

fn put_rows(alloc: Global, out: &mut Vec<u8>, session: &[u8], rows: &[Row]) -> Result<(), NoMemory>
    ensures { OnOk result (out.new.items ≡ out.old.items ++ flat_map (with_session session.now) (map row_line rows.now)) }
{
    for row in rows {
        let line = row_line(alloc, row)?;
        put_line(out, session, line.as_slice())?;
    }
    Ok(())
}

#[tactic(auto, unfolding(crate::specs::Texts::rows_of), using(crate::proofs::Pieces::pieces))]
fn put_rows_of(
    alloc: Global,
    out: &mut Vec<u8>,
    session: &[u8],
    reply: &Reply,
) -> Result<(), NoMemory>
    ensures { OnOk result (out.new.items ≡ out.old.items ++ flat_map (with_session session.now) (map row_line (rows_of reply.now))) }
{
    match reply {
        Reply::Rows(rows) => {
            put_rows(alloc, out, session, rows.as_slice())?;
            Ok(())
        }
        _ => Ok(()),
    }
}

#[tactic(auto, unfolding(crate::specs::Replies::last_line), using(crate::proofs::Pieces::pieces))]
fn last_line(alloc: Global, names: &[Text], reply: &Reply) -> Result<Vec<u8>, NoMemory>
    ensures { IfOk result (λ v. v.items ≡ last_line names.now reply.now) }
{
    let counts = count_line(alloc, reply)?;
    let node = node_line(alloc, reply)?;
    let mut out = Vec::from_slice(alloc, words(reply))?;
    put(&mut out, counts.as_bytes())?;
    put(&mut out, node.as_bytes())?;
    put_named_line(alloc, &mut out, names, reply)?;
    Ok(out)
}

fn reply_text(
    alloc: Global,
    session: &[u8],
    last: &[u8],
    reply: &Reply,
) -> Result<Vec<u8>, NoMemory>
    ensures { IfOk result (λ v. v.items ≡ flat_map (with_session session.now) (map row_line (rows_of reply.now)) ++ with_session session.now last.now) }
{
    let mut out = Vec::new(alloc);
    put_rows_of(alloc, &mut out, session, reply)?;
    put_line(&mut out, session, last)?;
    Ok(out)
}

/// What is printed for an answer of a run; `names` has the run's sessions by place.
pub fn print(alloc: Global, line: &Line, names: &[Text]) -> Result<Bytes, NoMemory>
    ensures { IfOk result (λ b. b ≡ text_of names.now line.now) }
{
    let session = session_text(alloc, names, line.session)?;
    let last = last_line(alloc, names, &line.reply)?;
    let out = reply_text(alloc, session.as_slice(), last.as_slice(), &line.reply)?;
    Ok(Bytes::new(out))
}
