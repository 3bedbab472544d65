// Cuts of byte strings.
ghost use Rattle.std.specs.Prelude.{◌≡◌};
ghost use Rattle.std.specs.Option.{option_map};
ghost use Rattle.hb_lines.specs.Cuts.{cut_at};

/// What stands before the first such byte, and what stands behind it.
#[tactic(auto, using(crate::proofs::CutLemmas::cut_here, crate::proofs::CutLemmas::cut_more, crate::proofs::CutLemmas::cut_start, crate::proofs::CutLemmas::cut_none))]
pub(crate) fn split_at_byte(bytes: &[u8], byte: u8) -> Option<(&[u8], &[u8])>
    ensures { option_map (λ p. (p.0.now, p.1.now)) result ≡ cut_at byte bytes.now }
{
    for (i, b) in bytes.iter().enumerate() {
        if *b == byte {
            return Some((&bytes[..i], &bytes[i + 1..]));
        }
    }
    None
}
