//! Cells, rows and lists of rows: the values that tables hold.
//!
//! A cell is a whole number of 64 bits or a short text. A row is a list of cells, and `Rows` is a
//! list of rows. They are made to be held by the million: an int takes no memory of its own, a text
//! exactly its bytes, and a row one piece of memory for its cells.
#![tactic(auto)]

mod cell;
mod comparing;
mod memory;
mod number;
mod reading;
mod row;
mod short_text;
mod spelling;

pub use cell::{Cell, CellFault, Op, Ty, copy_cell};
pub use comparing::holds;
pub use memory::Memory;
pub use number::read_number;
pub use reading::{read_cell, read_cells_are_cells};
pub use row::{Row, Rows, copy_row};
pub use short_text::Str;
pub use spelling::{cell_text, texts_are_read_again};
