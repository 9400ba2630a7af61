//! What one item of a script asks for, its body read.

use depot_script::CommandFault;
use desc_types::Delivery;
use feed_csv::BadRecord;
use query_pin::{Request, RequestFault};

/// Why an item is refused.
#[derive(Clone, Copy, Debug, PartialEq, Eq, Drop)]
pub enum Refusal {
    /// The line has this fault.
    Line(CommandFault),
    /// This record of the body is no row.
    Record(BadRecord),
    /// What is asked for has this fault.
    Request(RequestFault),
}

/// What one item of a script asks for.
#[derive(Debug, Drop)]
pub enum Work {
    /// Nothing: an empty line or a comment.
    Nothing,
    /// To be told why the item was refused.
    Refused(Refusal),
    /// To load a delivery.
    Load(Delivery),
    /// To compute all that is not settled.
    Drain,
    /// To answer a query.
    Query(Request),
    /// To tell the marks of partitions.
    Marks(Request),
    /// To tell the rows of a feed that were set aside.
    Aside(u16),
    /// To drop the versions that nothing needs any more.
    Reclaim,
}
