//! Laws of the formats.

ghost use Rattle.row_codec.specs.Laws.{BodiesHaveOneSpelling, DeliveriesHaveOneSpelling};
ghost use Rattle.row_codec.specs.Laws.{RowsHaveOneSpelling};

/// A law: the bytes of rows are read as them, no other bytes are, and a fault lies within the bytes.
pub fn rows_have_one_spelling()
    ensures law { RowsHaveOneSpelling }
{}

/// A law: the same of deliveries over each accepted description that they fit.
pub fn deliveries_have_one_spelling()
    ensures law { DeliveriesHaveOneSpelling }
{}

/// A law: the same of bodies.
pub fn bodies_have_one_spelling()
    ensures law { BodiesHaveOneSpelling }
{}
