// What is asked of ds, and the writes.
ghost use Rattle.std.specs.Prelude.{◌≡◌, true};
ghost use Rattle.hb_types.specs.declared.lock.Mode.TheVariants as mode;
ghost use Rattle.hb_types.specs.declared.places.Path.TheVariants as path;
ghost use Rattle.hb_types.specs.Lists.{Each};
ghost use Rattle.hb_model.specs.Spots.{ds, dictionary_space};
ghost use Rattle.hb_access.specs.Accesses.{use_of};
ghost use Rattle.hb_writes.specs.Underway.{IsWrite};
ghost use Rattle.hb_plandefine.specs.Defines.{Goes, IsReady, out_of};

use crate::stage::{Stage, Went};
use hb_access::{Goal, Usage};
use hb_model::Reply;
use hb_types::{Change, Mode, NodeName, Path, Space};
use hb_writes::{Begun, Writing};

fn dictionary(table: u16) -> Space
    ensures { result ≡ dictionary_space table }
{
    Space { area: 0, table }
}

/// A lock on a space of the dictionary, and its rows.
pub(crate) fn rows_of(table: u16, mode: Mode) -> Goal
    ensures { result ≡ record { node = record { 0 = ds }; path = path.Whole (dictionary_space table); mode = mode; reads = true } }
{
    Goal {
        node: NodeName(1),
        path: Path::Whole(dictionary(table)),
        mode,
        reads: true,
    }
}

/// A lock on a table's rows in a space of the dictionary and, where it reads, these rows.
pub(crate) fn group_of(table: u16, group: u16, reads: bool) -> Goal
    ensures { result ≡ record { node = record { 0 = ds }; path = path.Group (dictionary_space table) group; mode = mode.X; reads = reads } }
{
    Goal {
        node: NodeName(1),
        path: Path::Group(dictionary(table), group),
        mode: Mode::X,
        reads,
    }
}

/// The writes, and the reply behind them.
pub(crate) fn write_out(usage: Usage, changes: Vec<Change>, reply: Reply) -> Went
    requires { Each IsWrite changes.items }
    ensures goes { Goes (out_of changes.items reply (use_of usage)) result }
    ensures ready { IsReady usage result }
{
    match Writing::begin(usage, changes, reply) {
        Begun::Writing(writing) => Went::On(Stage::Writing(writing)),
        Begun::Replied(reply, usage) => Went::Replied(reply, usage),
        Begun::Refused(reply, usage) => Went::Refused(reply, usage),
    }
}
