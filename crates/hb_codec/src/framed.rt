// A record on its way to a log.
ghost use Rattle.std.specs.Prelude.{◌≡◌};

use std::marker::Model;

/// A record without its gate, followed by the next closed gate.
#[derive(Debug, Drop)]
pub struct Framed {
    bytes: Vec<u8>,
}

impl Model for Framed {
    ghost use Rattle.std.specs.Prelude.{List, ℕ};

    ghost Value = { List ℕ };

    ghost view = { λ f. f.bytes.items };
}

impl Framed {
    pub(crate) fn new(bytes: Vec<u8>) -> Framed
        ensures { result ≡ bytes.items }
    {
        Framed { bytes }
    }

    pub fn as_slice(&self) -> &[u8]
        ensures { result.now ≡ self.now }
    {
        self.bytes.as_slice()
    }
}
