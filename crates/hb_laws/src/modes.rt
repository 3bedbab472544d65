// Laws of lock modes.
ghost use Rattle.std.specs.Prelude.{◌≡◌, Bool};
ghost use Rattle.hb_types.specs.Modes.{compatible, covers, join};
ghost use Rattle.hb_types.specs.declared.lock.Mode.{Mode};
ghost use Rattle.hb_types.specs.declared.lock.Mode.TheVariants.{IX, S, SIX};
ghost use Rattle.hb_laws.specs.ModeTable.{stands_beside, IsLeast};

/// Two modes may stand beside each other where the table has the pair, either way round.
pub fn compatible_is_the_table()
    ensures { (a b : Mode) → compatible a b ≡ stands_beside a b }
{}

pub fn compatible_is_symmetric()
    ensures { (a b : Mode) → compatible a b ≡ compatible b a }
{}

/// A joined mode is as strong as both, and no stronger than any mode that is as strong as both.
pub fn join_is_least()
    ensures { (a b : Mode) → IsLeast a b (join a b) }
{}

pub fn join_of_s_and_ix()
    ensures { join S IX ≡ SIX }
{}
