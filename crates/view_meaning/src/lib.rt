//! What the warehouse means: partitions, journals, kept rows, values, versions, marks, and what an
//! answer shows.
//!
//! The definitions stand in `specs/`, one file a notion, over plain lists. Beside them stand the
//! programs that compute them by going over everything that was accepted: slow, and plain enough to
//! be read beside the definition. Faster programs above keep the same definitions.
#![tactic(auto)]

mod aside;
mod columns;
mod covering;
mod filtering;
mod grouping;
mod joining;
mod journal;
mod laws;
mod lent;
mod part;
mod parts;
mod plain;
mod request;

pub use aside::Aside;
pub use columns::{cell_at, push_copy};
pub use covering::part_of_row;
pub use filtering::push_if_met;
pub use grouping::{better, number_at, push_best, push_clamped};
pub use joining::{both, left_columns, right_columns};
pub use journal::{Entry, Loaded};
pub use laws::{
    closed_is_shut, closed_is_stable, closing_places_are_least, drains_are_legal, drains_fit,
    drains_settle, installs_are_values, latest_make_values, marks_are_exact, marks_rise,
    raw_marks_rise, reached_are_unsettled, settled_is_stable, settled_is_value, shown_is_content,
};
pub use lent::Lent;
pub use part::Part;
pub use plain::{plain_value, plain_version, row_tick, source_parts};
pub use request::{Item, Mark, MarkItem, PinItem, compare_marks};
