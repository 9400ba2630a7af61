//! Rows that are set aside: they came after their partition was closed.

/// The name of a row that is set aside: the number of its delivery, its record there, and the
/// partition that it is for. The feed is the one whose rows are asked for.
#[derive(Clone, Copy, Debug, PartialEq, Eq)]
pub struct Aside {
    pub number: u32,
    pub row: u32,
    pub table: u16,
    pub part: u64,
}
