//! What a description declares, and what a delivery brings.
//!
//! A description lists feeds and tables. A table is raw, filled by the deliveries of one feed, or
//! a view over tables that were declared before it. Feeds, tables and columns go by their
//! numbers, from 0 in the order in which they were declared. Time is counted in ticks below
//! [`END`].
#![tactic(auto)]

mod accepted;
mod delivery;
mod field;
mod lookups;
mod table;
mod view;

pub use accepted::AcceptedDesc;
pub use delivery::{DRow, Delivery};
pub use desc_lines::Fun;
pub use field::field_cell;
pub use lookups::{
    find_feed, find_table, find_type, place_of_column, place_of_feed, place_of_table, read_type,
    source_columns, source_width,
};
pub use partition_map::{END, Span, Width};
pub use table::{Column, Desc, Feed, Key, Table, compare_keys};
pub use view::{Agg, Cond, Kind, Pair, Src};
