//! What a claim is told.

use depot_cell::Memory;
use desc_types::Key;
use query_pin::Input;
use std::marker::Model;

/// A claim: its id, the partition, the place in the journal up to which its sources are counted, and
/// the versions of them to read, without empty ones: those of the left source first, `left` of them.
#[derive(Debug, Drop)]
pub struct Ticket {
    pub id: u64,
    pub key: Key,
    pub at: u64,
    pub inputs: Vec<Input>,
    pub left: u64,
}

/// Why a partition could not be claimed.
#[derive(Clone, Copy, Debug, PartialEq, Eq)]
pub enum ClaimFault {
    /// It is not stale, or a source of it is not settled, or it is claimed already.
    NotReady,
    /// There is no memory for the claim.
    Memory,
}

impl Model for Ticket {
    ghost use Rattle.claim_core.specs.Cores.{TicketOf};

    ghost Value = { TicketOf };

    ghost view = { λ ticket. record {
      id = ticket.id;
      key = ticket.key;
      at = ticket.at;
      inputs = ticket.inputs.items;
      left = ticket.left;
    } };
}

impl From<Memory> for ClaimFault {
    ghost use Rattle.std.specs.Prelude.{◌≡◌};
    ghost use Rattle.claim_core.specs.declared.ticket.ClaimFault.TheVariants as variant;

    ghost from_gives = { λ _ fault. fault ≡ variant.Memory };

    fn from(_refused: Memory) -> ClaimFault {
        ClaimFault::Memory
    }
}
