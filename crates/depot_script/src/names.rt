//! The names of feeds and tables, by their numbers.

ghost use Rattle.std.specs.Prelude.{◌≡◌};
ghost use Rattle.depot_script.specs.Names.{feed_name, table_name};

use desc_types::AcceptedDesc;

/// The name of the feed with this number, and no bytes if there is none.
pub fn feed_name(served: &AcceptedDesc, feed: u16) -> &[u8]
    ensures exact { result.now ≡ feed_name served.now.desc feed }
{
    match served.desc.feeds.get(usize::from(feed)) {
        Some(feed) => feed.name.as_bytes(),
        None => &[],
    }
}

/// The name of the table with this number, and no bytes if there is none.
pub fn table_name(served: &AcceptedDesc, table: u16) -> &[u8]
    ensures exact { result.now ≡ table_name served.now.desc table }
{
    match served.desc.tables.get(usize::from(table)) {
        Some(table) => table.name.as_bytes(),
        None => &[],
    }
}
