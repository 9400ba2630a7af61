//! Why bytes are not read.

ghost use Rattle.std.specs.Prelude.{◌≡◌, ◌-◌, length};
ghost use Rattle.row_codec.specs.declared.fault.CodecFault.TheVariants.{At};

/// Why some bytes are no spelling.
#[derive(Clone, Copy, Debug, PartialEq, Eq, Drop)]
pub enum CodecFault {
    /// The field that begins at this byte, from 0, cannot be read, or nothing may stand here.
    At { place: u64 },
    Memory,
}

/// A field cannot be read, and this many bytes stand from its first one to the end.
#[derive(Clone, Copy, Debug, PartialEq, Eq, Drop)]
pub(crate) struct Short(pub(crate) usize);

/// Why a value inside is not read.
#[derive(Clone, Copy, Debug, PartialEq, Eq, Drop)]
pub(crate) enum Cut {
    /// A field cannot be read, and this many bytes stand from its first one to the end.
    Left(usize),
    Memory,
}

impl From<depot_cell::Memory> for Cut {
    ghost use Rattle.std.specs.Prelude.{◌≡◌};
    ghost use Rattle.row_codec.specs.declared.fault.Cut.TheVariants.{Memory as NoMemory};

    ghost from_gives = { λ _ cut. cut ≡ NoMemory };

    fn from(_refused: depot_cell::Memory) -> Cut {
        Cut::Memory
    }
}

impl From<Short> for Cut {
    ghost use Rattle.std.specs.Prelude.{◌≡◌};
    ghost use Rattle.row_codec.specs.declared.fault.Cut.TheVariants.{Left};

    ghost from_gives = { λ short cut. cut ≡ Left short.0 };

    fn from(short: Short) -> Cut {
        Cut::Left(short.0)
    }
}

/// The fault of the field from whose first byte on so many bytes are left.
pub(crate) fn fault_at(bytes: &[u8], left: usize) -> CodecFault
    ensures exact { result ≡ At (length bytes.now - left) }
{
    CodecFault::At {
        place: bytes.len().saturating_sub(left) as u64,
    }
}
