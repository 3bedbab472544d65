// A gate that holds nobody.
use hb_edge::Gate;

/// Lets every request pass at once.
#[derive(Clone, Copy, Debug, Default, PartialEq, Eq)]
pub struct OpenGate;

impl OpenGate {
    pub fn new() -> OpenGate {
        OpenGate
    }
}

impl Gate for OpenGate {
    fn pass(&self, _session: u8, _nth: u64) {}
}
