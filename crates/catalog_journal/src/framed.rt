//! A record as it is written after its gate.

ghost use Rattle.std.specs.Prelude.{◌≡◌, ◌++◌, IfOk, OnOk, length};
ghost use Rattle.catalog_journal.specs.Catalog.{IsBody, framed};

use crate::Log;
use depot_cell::Memory;
use std::alloc::Global;
use std::marker::Model;

/// A body between its length and a closed gate, for `Log::append`. It is made before the first
/// write, so that an append takes no memory.
#[derive(Drop)]
pub struct Framed {
    pub(crate) bytes: Vec<u8>,
}

impl Model for Framed {
    ghost use Rattle.std.specs.Prelude.{ℕ, List};
    ghost use Rattle.catalog_journal.specs.Logs.{IsFramed, framed_body};

    ghost Value = { List ℕ };

    ghost view = { λ inside. framed_body inside.bytes.items };

    ghost invariant = { λ inside. IsFramed inside.bytes.items };
}

impl Log {
    /// Frames a body.
    pub fn frame(alloc: Global, body: &[u8]) -> Result<Framed, Memory>
        requires short { IsBody body.now }
        ensures exact { IfOk result (λ framed. framed ≡ body.now) }
    {
        let mut bytes = Vec::new(alloc);
        put_framed(&mut bytes, body)?;
        Ok(Framed { bytes })
    }
}

/// Puts the length of a body, the body and a closed gate at the end.
pub(crate) fn put_framed(out: &mut Vec<u8>, body: &[u8]) -> Result<(), Memory>
    requires short { IsBody body.now }
    ensures ok { OnOk result (out.new.items ≡ out.old.items ++ framed body.now) }
{
    out.reserve_exact(body.len() + 5)?;
    out.extend_from_slice(&(body.len() as u32).to_be_bytes())?;
    out.extend_from_slice(body)?;
    out.push(0)?;
    Ok(())
}
