//! Which ports are open, by the calls of their maker.
ghost use Rattle.std.specs.Prelude.{◌≡◌, List, true, false, [], ◌∷◌, ◌++◌};
ghost use Rattle.relay_outside.specs.declared.ports.PortCall.{PortCall};
ghost use Rattle.relay_outside.specs.Ports.{IsOpen};

use relay_outside::{Addr, PortCall};

/// Whether two addresses are the same.
fn is_same(a: Addr, b: Addr) -> bool
    ensures same { result ≡ true → a ≡ b }
    ensures differ { a ≡ b → result ≡ true }
{
    a == b
}

/// Whether an address is open after one more call, where this says whether it was before.
fn is_open_after(was: bool, call: &PortCall, at: Addr) -> bool
    ensures { (calls : List PortCall) → (was ≡ false → IsOpen calls at → ⊥) → result ≡ false → IsOpen (calls ++ call.now ∷ []) at → ⊥ }
{
    match call {
        PortCall::Open { at: there, done } => {
            let same = is_same(*there, at);
            was | (*done & same)
        }
        PortCall::Close { at: there, .. } => {
            let same = is_same(*there, at);
            was & !same
        }
    }
}

/// Whether an address is open after these calls.
pub(crate) fn is_open(calls: &[PortCall], at: Addr) -> bool
    ensures { result ≡ false → IsOpen calls.now at → ⊥ }
{
    let mut opened = false;
    for call in calls {
        opened = is_open_after(opened, call, at);
    }
    opened
}
