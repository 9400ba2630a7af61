//! Bodies of journal entries.

ghost use Rattle.std.specs.Prelude.{◌≡◌, ◌++◌, IfOk, OnOk};
ghost use Rattle.row_codec.specs.Answers.{Finds, Tells};
ghost use Rattle.row_codec.specs.Bodies.{IsBody, body_at, body_bytes, install_at, load_at, read_body};

use crate::fault::{CodecFault, Short, fault_at};
use crate::field::{put, put_u16, put_u64, take_u16, take_u64};
use depot_cell::Memory;
use desc_types::Key;
use std::alloc::Global;

/// What the catalogue says of an entry. The length is that of the content of the entry's file, in
/// bytes.
#[derive(Clone, Copy, Debug, PartialEq, Eq, Drop)]
pub enum Body {
    Load { len: u64 },
    /// `at` is the place at which the partition was claimed.
    Install { key: Key, at: u64, len: u64 },
}

/// The bytes of a body.
pub fn encode_body(alloc: Global, body: &Body) -> Result<Vec<u8>, Memory>
    ensures exact { IfOk result (λ bytes. bytes.items ≡ body_bytes body.now) }
{
    let mut out = Vec::new(alloc);
    match body {
        Body::Load { len } => {
            put(&mut out, &[1])?;
            put_u64(&mut out, *len)?;
        }
        Body::Install { key, at, len } => {
            put(&mut out, &[2])?;
            put_u16(&mut out, key.table)?;
            put_u64(&mut out, key.part)?;
            put_u64(&mut out, *at)?;
            put_u64(&mut out, *len)?;
        }
    }
    Ok(out)
}

/// The body that the bytes are. It takes no memory.
pub fn decode_body(bytes: &[u8]) -> Result<Body, CodecFault>
    ensures exact { Tells result (read_body bytes.now) }
    ensures ok { IfOk result (λ body. IsBody body × (bytes.now ≡ body_bytes body)) }
{
    match take_body(bytes) {
        Ok((body, [])) => Ok(body),
        Ok((_, rest)) => Err(fault_at(bytes, rest.len())),
        Err(Short(left)) => Err(fault_at(bytes, left)),
    }
}

#[tactic(auto, unfolding(crate::specs::Bodies::body_at))]
fn take_body(bytes: &[u8]) -> Result<(Body, &[u8]), Short>
    ensures exact { Finds (λ taken. (taken.0, taken.1.now)) result (body_at bytes.now) }
{
    match bytes {
        [] => Err(Short(0)),
        [1, rest @ ..] => take_load(rest),
        [2, rest @ ..] => take_install(rest),
        [_, ..] => Err(Short(bytes.len())),
    }
}

#[tactic(auto, unfolding(crate::specs::Bodies::load_at))]
fn take_load(bytes: &[u8]) -> Result<(Body, &[u8]), Short>
    ensures exact { Finds (λ taken. (taken.0, taken.1.now)) result (load_at bytes.now) }
{
    let (len, rest) = take_u64(bytes)?;
    Ok((Body::Load { len }, rest))
}

#[tactic(auto, unfolding(crate::specs::Bodies::install_at))]
fn take_install(bytes: &[u8]) -> Result<(Body, &[u8]), Short>
    ensures exact { Finds (λ taken. (taken.0, taken.1.now)) result (install_at bytes.now) }
{
    let (table, rest) = take_u16(bytes)?;
    let (part, rest) = take_u64(rest)?;
    let (at, rest) = take_u64(rest)?;
    let (len, rest) = take_u64(rest)?;
    let key = Key { table, part };
    Ok((Body::Install { key, at, len }, rest))
}
