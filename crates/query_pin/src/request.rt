//! What a query asks for, and why it is refused.

ghost use Rattle.std.specs.Prelude.{◌≡◌, ◌<◌, ◌≤◌, length, nat_lt, false};
ghost use Rattle.std.specs.List.{list_any};
ghost use Rattle.std.specs.Result.{result_err};
ghost use Rattle.partition_map.specs.Time.{END as the_end};
ghost use Rattle.query_pin.specs.Requests.{count_all, count_asked, fault_text, is_bad_range};
ghost use Rattle.query_pin.specs.Requests.{lacks_table, request_fault};

use desc_types::{AcceptedDesc, Desc, END};
use partition_map::parts_of_span;
use std::marker::Model;
use view_meaning::Item;

/// The most partitions of a request, those of all its items together.
const PARTS_LIMIT: u64 = 65_536;

/// What a query asks for: the partitions of each item, in the order of the items. A partition that
/// two items ask for is shown for each of them.
#[derive(Debug, Drop)]
pub struct Request {
    pub items: Vec<Item>,
}

impl Model for Request {
    ghost use Rattle.std.specs.Prelude.{List};
    ghost use Rattle.view_meaning.specs.declared.request.Item.{Item};

    ghost Value = { List Item };

    ghost view = { λ request. request.items.items };
}

/// Why a request is refused. One that is bad for several reasons has the first of them.
#[derive(Clone, Copy, Debug, PartialEq, Eq, Drop)]
pub enum RequestFault {
    /// An item's table does not exist.
    NoTable,
    /// An item begins after its end, or ends after [`desc_types::END`].
    BadRange,
    /// The items ask for more than 65,536 partitions together.
    TooWide,
}

impl RequestFault {
    /// The word that names the fault.
    pub fn text(&self) -> &'static str
        ensures exact { result.now ≡ fault_text self.now }
    {
        match self {
            RequestFault::NoTable => "no_table",
            RequestFault::BadRange => "bad_range",
            RequestFault::TooWide => "too_wide",
        }
    }
}

/// Whether a request may be answered over a description, and if not, why. Each test is made of all
/// items before the next one.
pub fn check_request(served: &AcceptedDesc, request: &Request) -> Result<(), RequestFault>
    ensures exact { result_err result ≡ request_fault served.now.desc request.now }
{
    if lacks_a_table(&served.desc, &request.items) {
        Err(RequestFault::NoTable)
    } else if has_bad_range(&request.items) {
        Err(RequestFault::BadRange)
    } else if is_too_wide(served, &request.items) {
        Err(RequestFault::TooWide)
    } else {
        Ok(())
    }
}

/// Whether the table of some item does not exist.
fn lacks_a_table(desc: &Desc, items: &[Item]) -> bool
    ensures exact { result ≡ list_any (lacks_table desc.now) items.now }
{
    items.iter().any(|item| lacks_table(desc, *item))
}

/// Whether there is no table of the item's number.
fn lacks_table(desc: &Desc, item: Item) -> bool
    ensures exact { result ≡ lacks_table desc.now item }
{
    desc.tables.len() <= usize::from(item.table)
}

/// Whether some item begins after its end, or ends after the end of time.
fn has_bad_range(items: &[Item]) -> bool
    ensures exact { result ≡ list_any is_bad_range items.now }
{
    items.iter().any(|item| is_bad_range(*item))
}

/// Whether an item begins after its end, or ends after the end of time.
fn is_bad_range(item: Item) -> bool
    ensures exact { result ≡ is_bad_range item }
{
    item.from > item.to || item.to > END
}

/// Whether the items ask for more than [`PARTS_LIMIT`] partitions together. The count stops at the
/// first item that is too much, so it stays small.
fn is_too_wide(served: &AcceptedDesc, items: &[Item]) -> bool
    requires tables { list_any (lacks_table served.now.desc) items.now ≡ false }
    requires ranges { list_any is_bad_range items.now ≡ false }
    ensures exact { result ≡ nat_lt PARTS_LIMIT (count_all served.now.desc items.now) }
{
    let mut count = 0;
    for &item in items {
        count += count_asked(served, item);
        if count > PARTS_LIMIT {
            return true;
        }
    }
    false
}

/// How many partitions an item asks for.
fn count_asked(served: &AcceptedDesc, item: Item) -> u64
    requires there { item.table < length served.now.desc.tables }
    requires in_order { item.from ≤ item.to }
    requires in_time { item.to ≤ the_end }
    ensures exact { result ≡ count_asked served.now.desc item }
    ensures within { result ≤ the_end }
{
    parts_of_span(served.table(item.table).width, item.from, item.to).count
}
