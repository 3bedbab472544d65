// Laws of the records of an image.
ghost use Rattle.std.specs.Prelude.{◌≡◌, ℕ, List};
ghost use Rattle.std.specs.Ordering.{nat_cmp};
ghost use Rattle.hb_types.specs.declared.change.Placed.{Placed};
ghost use Rattle.hb_types.specs.Lists.{Ascends};
ghost use Rattle.hb_types.specs.Logs.{Records, readable};
ghost use Rattle.hb_log.specs.Standing.{Breaks};

use hb_codec::records_have_one_form;

/// An image has one reading from a place on, and isn't damaged there as well. Its records ascend in place.
pub fn readings_are_one(_image: &[u8])
    ensures one { (from : ℕ) (a b : List Placed) → Records _image.now from a → Records _image.now from b → a ≡ b }
    ensures or_damaged { (from at : ℕ) (a : List Placed) → Records _image.now from a → Breaks (readable _image.now) from at → ⊥ }
    ensures ascending { (from : ℕ) (a : List Placed) → Records _image.now from a → Ascends (λ x y. nat_cmp x.place y.place) a }
{
    records_have_one_form();
}
