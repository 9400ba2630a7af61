//! What stands at a gate.

ghost use Rattle.std.specs.Prelude.{◌∷◌};
ghost use Rattle.catalog_journal.specs.Gates.{IsGate};

/// What bytes begin with.
#[derive(Clone, Copy, Debug, PartialEq, Eq)]
pub(crate) enum Gate {
    /// An open gate, a whole record whose body has this length, and one more gate.
    Open { len: usize },
    /// A gate that is not open.
    Closed,
    /// No gate, or an open one with less after it.
    Cut,
}

/// What the bytes begin with.
pub(crate) fn gate_of(bytes: &[u8]) -> Gate
    ensures exact { IsGate bytes.now result }
{
    match bytes {
        [] => Gate::Cut,
        [gate, rest @ ..] => gate_before(*gate, rest),
    }
}

/// What bytes begin with if they are this gate and these bytes after it.
fn gate_before(gate: u8, rest: &[u8]) -> Gate
    ensures exact { IsGate (gate ∷ rest.now) result }
{
    if gate == 1 {
        open_gate(rest)
    } else {
        Gate::Closed
    }
}

/// What bytes begin with if these follow an open gate.
fn open_gate(rest: &[u8]) -> Gate
    ensures exact { IsGate (1 ∷ rest.now) result }
{
    match rest {
        [a, b, c, d, more @ ..] => {
            let len = u32::from_be_bytes([*a, *b, *c, *d]) as usize;
            if len < more.len() {
                Gate::Open { len }
            } else {
                Gate::Cut
            }
        }
        _ => Gate::Cut,
    }
}
