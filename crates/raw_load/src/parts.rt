//! The pieces of each partition: which rows of which deliveries it has.

ghost use Rattle.std.specs.Prelude.{◌≡◌, OnOk};
ghost use Rattle.std.specs.declared.alloc.Global.{Global as GlobalOf};
ghost use Rattle.desc_types.specs.declared.table.Key.{Key as KeyOf};
ghost use Rattle.raw_load.specs.Pieces.{GainsPiece, GainsPieces, HasPieceRoom, HasPieceRooms};
ghost use Rattle.raw_load.specs.Pieces.{KeepsPieces, pieces_at};

use crate::piece::{Piece, Stretch};
use depot_cell::Memory;
use desc_types::Key;
use std::alloc::Global;
use std::collections::BTreeMap;

/// The pieces of a partition, in order of their deliveries.
pub(crate) fn pieces_at(parts: &BTreeMap<Key, Vec<Piece>>, key: Key) -> &[Piece]
    ensures exact { result.now ≡ pieces_at parts.now.entries key }
{
    match parts.get(&key) {
        Some(pieces) => pieces.as_slice(),
        None => &[],
    }
}

/// Makes room for one piece more in each partition that has stretches. Each one keeps its pieces.
pub(crate) fn make_room(
    alloc: Global,
    parts: &mut BTreeMap<Key, Vec<Piece>>,
    found: &BTreeMap<Key, Vec<Stretch>>,
) -> Result<(), Memory>
    ensures ok { OnOk result (HasPieceRooms parts.new.entries found.now.entries) }
    ensures kept { KeepsPieces parts.old.entries parts.new.entries }
{
    for key in found.keys() {
        make_room_at(alloc, parts, *key)?;
    }
    Ok(())
}

/// Makes room for one piece more in a partition.
fn make_room_at(
    alloc: Global,
    parts: &mut BTreeMap<Key, Vec<Piece>>,
    key: Key,
) -> Result<(), Memory>
    ensures ok { OnOk result (HasPieceRoom parts.new.entries key) }
    ensures rooms { (other : KeyOf) → HasPieceRoom parts.old.entries other
        → HasPieceRoom parts.new.entries other }
    ensures kept { KeepsPieces parts.old.entries parts.new.entries }
{
    if let Some(pieces) = parts.get_mut(&key) {
        pieces.reserve(1)?;
        return Ok(());
    }
    match parts.insert(key, Vec::with_capacity(alloc, 1)?) {
        Ok(_) => Ok(()),
        Err(_) => Err(Memory),
    }
}

/// Puts, in each partition that has stretches of a delivery, a piece with them at the end. It takes
/// no memory.
pub(crate) fn push_pieces(
    parts: &mut BTreeMap<Key, Vec<Piece>>,
    delivery: usize,
    mut found: BTreeMap<Key, Vec<Stretch>>,
)
    requires room { HasPieceRooms parts.old.entries found.entries }
    ensures gained { GainsPieces delivery found.entries parts.old.entries parts.new.entries }
{
    while let Some((key, stretches)) = found.pop_first() {
        push_piece(
            parts,
            key,
            Piece {
                delivery,
                stretches,
            },
        );
    }
}

/// Puts a piece at the end of those of a partition. It takes no memory.
fn push_piece(parts: &mut BTreeMap<Key, Vec<Piece>>, key: Key, piece: Piece)
    requires room { HasPieceRoom parts.old.entries key }
    ensures gained { GainsPiece key piece parts.old.entries parts.new.entries }
{
    match parts.get_mut(&key) {
        Some(pieces) => match pieces.push(piece) {
            Ok(()) => {}
            Err(_) => unreachable!(),
        },
        None => unreachable!(),
    }
}
