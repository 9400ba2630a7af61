//! The rows of pieces, lent where they lie. No row is copied.

ghost use Rattle.std.specs.Prelude.{◌≡◌, ◌++◌, All, OnErr, OnOk, flat_map};
ghost use Rattle.view_meaning.specs.Growth.{BeginsWith};
ghost use Rattle.raw_load.specs.Books.{rows_of};
ghost use Rattle.raw_load.specs.Stretches.{IsStretchOf, stretch_rows, stretches_rows};
ghost use Rattle.raw_load.specs.Pieces.{IsPieceOf, piece_rows};

use crate::piece::{Piece, Stretch};
use depot_cell::Memory;
use desc_types::{DRow, Delivery};
use view_meaning::Lent;

/// Puts the rows of some pieces at the end. After an `Err` there may be some of them.
pub(crate) fn lend_pieces<'a>(
    deliveries: &'a [Delivery],
    pieces: &[Piece],
    parts: &mut Vec<Lent<'a>>,
) -> Result<(), Memory>
    requires within { All (IsPieceOf deliveries.now) pieces.now }
    ensures ok { OnOk result (rows_of parts.new.items
        ≡ rows_of parts.old.items ++ flat_map (piece_rows deliveries.now) pieces.now) }
    ensures err { OnErr result (BeginsWith (rows_of parts.old.items) (rows_of parts.new.items)) }
{
    for piece in pieces {
        lend_piece(deliveries, piece, parts)?;
    }
    Ok(())
}

/// Puts the rows of a piece at the end. After an `Err` there may be some of them.
fn lend_piece<'a>(
    deliveries: &'a [Delivery],
    piece: &Piece,
    parts: &mut Vec<Lent<'a>>,
) -> Result<(), Memory>
    requires within { IsPieceOf deliveries.now piece.now }
    ensures ok { OnOk result (rows_of parts.new.items
        ≡ rows_of parts.old.items ++ piece_rows deliveries.now piece.now) }
    ensures err { OnErr result (BeginsWith (rows_of parts.old.items) (rows_of parts.new.items)) }
{
    let delivery = &deliveries[piece.delivery];
    lend_stretches(&delivery.rows, &piece.stretches, parts)
}

/// Puts the rows of some stretches at the end. After an `Err` there may be some of them.
fn lend_stretches<'a>(
    from: &'a [DRow],
    stretches: &[Stretch],
    parts: &mut Vec<Lent<'a>>,
) -> Result<(), Memory>
    requires within { All (IsStretchOf from.now) stretches.now }
    ensures ok { OnOk result (rows_of parts.new.items
        ≡ rows_of parts.old.items ++ stretches_rows from.now stretches.now) }
    ensures err { OnErr result (BeginsWith (rows_of parts.old.items) (rows_of parts.new.items)) }
{
    for stretch in stretches {
        lend_stretch(from, *stretch, parts)?;
    }
    Ok(())
}

/// Puts the rows of a stretch at the end.
fn lend_stretch<'a>(
    from: &'a [DRow],
    stretch: Stretch,
    parts: &mut Vec<Lent<'a>>,
) -> Result<(), Memory>
    requires within { IsStretchOf from.now stretch }
    ensures ok { OnOk result (rows_of parts.new.items
        ≡ rows_of parts.old.items ++ stretch_rows from.now stretch) }
    ensures err { OnErr result (parts.new.items ≡ parts.old.items) }
{
    let rows = &from[stretch.first..stretch.first + stretch.count];
    parts.push(Lent::of_delivery(rows))?;
    Ok(())
}
