// The groups of a line.
ghost use Rattle.std.specs.Prelude.{◌≡◌, ◌<◌, ◌+◌, ◌^◌, ◌∷◌, [], drop, MatchOption, OnSome};

use hb_batch::Hint;
use sqlite_items::Items;

/// The group at a position.
#[tactic(auto, using(crate::proofs::Dropping::by_position))]
pub(crate) fn hint_at(hints: &Items<Hint>, at: usize) -> Option<Hint>
    ensures within { OnSome result (at + 1 < 2 ^ 64) }
    ensures hint { MatchOption result (drop at hints.now ≡ []) (λ h. drop at hints.now ≡ h ∷ drop (at + 1) hints.now) }
{
    hints.as_slice().get(at).copied()
}
