// The records of ends, with the closed gate behind them: they are made without memory.
ghost use Rattle.std.specs.Prelude.{◌≡◌, ◌++◌, ◌∷◌, []};
ghost use Rattle.hb_types.specs.Records.{framed as spelled};
ghost use Rattle.hb_types.specs.declared.change.LogItem.TheVariants as item;

use hb_types::{Number, Tx};

/// The bytes of a Commit.
pub(crate) fn commit_bytes(tx: Tx, number: Number) -> [u8; 22]
    ensures { result ≡ spelled (item.Commit tx number) ++ 0 ∷ [] }
{
    let t = tx.0.to_le_bytes();
    let n = number.0.to_le_bytes();
    [
        17, 0, 0, 0, 2, t[0], t[1], t[2], t[3], t[4], t[5], t[6], t[7], n[0], n[1], n[2], n[3],
        n[4], n[5], n[6], n[7], 0,
    ]
}

/// The bytes of an Abort.
pub(crate) fn abort_bytes(tx: Tx) -> [u8; 14]
    ensures { result ≡ spelled (item.Abort tx) ++ 0 ∷ [] }
{
    let t = tx.0.to_le_bytes();
    [
        9, 0, 0, 0, 3, t[0], t[1], t[2], t[3], t[4], t[5], t[6], t[7], 0,
    ]
}
