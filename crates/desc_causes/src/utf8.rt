//! Whether bytes are a text.

ghost use Rattle.std.specs.Prelude.{◌≡◌};
ghost use Rattle.std.specs.Str.{is_utf8};

/// Whether bytes are UTF-8.
pub fn is_utf8(bytes: &[u8]) -> bool
    ensures exact { result ≡ is_utf8 bytes.now }
{
    match str::from_utf8(bytes) {
        Ok(_) => true,
        Err(_) => false,
    }
}
