//! Marks: whether more rows of a partition may come, and whether all that were expected came.
//!
//! A book keeps of each feed what its deliveries told, so that the mark of a raw partition is told
//! without a pass over them.
#![tactic(auto)]

mod below;
mod book;
mod closings;
mod feed;
mod missed;
mod numbers;
mod run;
mod windows;

pub use below::raw_runs_below;
pub use book::MarkBook;
pub use run::Run;
