//! What a line asks for.

use query_pin::Request;

/// What a line asks for. Feeds and tables go by their numbers.
#[derive(Debug, Drop)]
pub enum Command {
    /// Nothing: the line is empty, or a comment.
    Nothing,
    /// To load the body that follows the line: a delivery of `size` bytes. `closes` is a tick or
    /// [`desc_types::END`].
    Deliver {
        feed: u16,
        number: u32,
        closes: u64,
        size: u64,
    },
    /// To compute all that is not settled.
    Drain,
    /// An answer.
    Query(Request),
    /// The marks of the partitions of one item.
    Marks(Request),
    /// The rows of a feed that were set aside.
    Aside {
        feed: u16,
    },
    /// To forget the versions that nothing needs.
    Reclaim,
    /// To end.
    End,
}
