//! The list of claims.

ghost use Rattle.std.specs.Prelude.{◌≡◌, not};
ghost use Rattle.std.specs.List.{list_any};
ghost use Rattle.view_meaning.specs.Partitions.{is_key};
ghost use Rattle.machine_meaning.specs.declared.claim.Claim.{Claim as ClaimOf};
ghost use Rattle.machine_meaning.specs.Events.{claim_at, other_claims};

use desc_types::Key;
use machine_meaning::Claim;

/// The claim of an id, if there is one.
pub(crate) fn find_claim(claims: &[Claim], id: u64) -> Option<Claim>
    ensures exact { result ≡ claim_at id claims.now }
{
    for &claim in claims {
        if claim.id == id {
            return Some(claim);
        }
    }
    None
}

/// Whether a partition is claimed.
pub(crate) fn is_claimed(claims: &[Claim], key: Key) -> bool
    ensures exact { result ≡ list_any (λ (claim : ClaimOf). is_key key claim.key) claims.now }
{
    for claim in claims {
        if claim.key == key {
            return true;
        }
    }
    false
}

/// Ends the claim of an id. It takes no memory.
pub(crate) fn end_claim(claims: &mut Vec<Claim>, id: u64)
    ensures exact { claims.new.items ≡ other_claims id claims.old.items }
{
    claims.retain(|claim| claim.id != id);
}
