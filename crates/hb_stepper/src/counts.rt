// How many back ends a system has.
ghost use Rattle.std.specs.Prelude.{◌≡◌, ◌≤◌};

/// How many back ends a system has.
#[derive(Clone, Copy)]
pub struct BackEnds {
    count: u8,
    ghost few: { (1 ≤ count) × (count ≤ 8) },
}

impl BackEnds {
    pub fn new(count: u8) -> BackEnds
        requires { (1 ≤ count) × (count ≤ 8) }
        ensures { result.count ≡ count }
    {
        BackEnds { count }
    }

    pub fn get(self) -> u8
        ensures few { (1 ≤ result) × (result ≤ 8) }
        ensures count { result ≡ self.count }
    {
        self.count
    }
}
