//! Bodies of entries.

use desc_types::Key;
use row_codec::{Body, CodecFault, bodies_have_one_spelling, decode_body, encode_body};
use std::alloc::Global;
use std::test::Fail;

static LOAD: Body = Body::Load { len: 66 };

static INSTALL: Body = Body::Install {
    key: Key { table: 1, part: 0 },
    at: 1,
    len: 26,
};

/// Whether these are the bytes of a body, and they are read as it.
fn is_spelled(alloc: Global, body: Body, bytes: &[u8]) -> Result<bool, Fail> {
    let spelled = encode_body(alloc, &body)?;
    Ok(spelled.as_slice() == bytes && decode_body(bytes) == Ok(body))
}

#[test]
fn bodies_have_their_bytes(rt: HostRuntime) -> Result<(), Fail> {
    let load = b"\x01\0\0\0\0\0\0\0\x42";
    assert!(rt; is_spelled(rt.alloc(), LOAD, load)?);
    let install = b"\x02\0\x01\0\0\0\0\0\0\0\0\0\0\0\0\0\0\0\x01\0\0\0\0\0\0\0\x1a";
    assert!(rt; is_spelled(rt.alloc(), INSTALL, install)?);
    bodies_have_one_spelling();
    Ok(())
}

/// Bytes that are no body, and the place that is blamed.
static DAMAGES: [(&[u8], u64); 6] = [
    (b"", 0),
    (b"\0\0\0\0\0\0\0\0\x42", 0),
    (b"\x03\0\0\0\0\0\0\0\x42", 0),
    (b"\x01\0\0\0\0\0\0\0", 1),
    (b"\x01\0\0\0\0\0\0\0\x42!", 9),
    (b"\x02\0\x01\0\0\0\0\0\0\0\0\0", 11),
];

#[test]
fn damaged_bodies_are_blamed_at_their_place(rt: HostRuntime) -> Result<(), Fail> {
    for &(bytes, place) in &DAMAGES {
        assert!(rt;
            decode_body(bytes) == Err(CodecFault::At { place }),
            "at {place}"
        );
    }
    Ok(())
}
