//! What an aggregate computes.

/// What an aggregate computes of the rows of a group.
#[derive(Clone, Copy, Debug, PartialEq, Eq)]
pub enum Fun {
    Sum,
    Count,
    Least,
    Greatest,
}
