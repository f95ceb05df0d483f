use crate::gates::Gate;

/// The gate that lets every relay through.
#[derive(Clone, Copy, PartialEq, Eq, Debug)]
pub struct OpenGate;

impl OpenGate {
    /// An open gate.
    pub fn new() -> OpenGate {
        OpenGate
    }
}

impl Gate for OpenGate {
    ghost passed = { λ gate cell. Unit {0} };

    fn inside(&self, _cell: u32) {}
}
