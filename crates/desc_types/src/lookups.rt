//! What has a name: a feed, a table or a column.

ghost use Rattle.std.specs.Prelude.{◌≡◌, ◌<◌, length, position, IfSome};
ghost use Rattle.std.specs.Str.{bytes_eq};
ghost use Rattle.desc_types.specs.Lookups.{find_column, find_feed, find_table, find_type};
ghost use Rattle.desc_types.specs.Lookups.{read_type, source_columns, source_width};

use crate::{AcceptedDesc, Column, Desc, Feed, Table, Width};
use depot_cell::Ty;
use desc_lines::{WrittenSource, is_word};

/// The number of the feed with this name.
pub fn find_feed(accepted: &AcceptedDesc, name: &[u8]) -> Option<u16>
    ensures exact { result ≡ find_feed accepted.now.desc name.now }
    ensures within { IfSome result (λ feed. feed < length accepted.now.desc.feeds) }
{
    match place_of_feed(&accepted.desc.feeds, name) {
        Some(feed) => Some(feed as u16),
        None => None,
    }
}

/// The place of the feed with this name.
pub fn place_of_feed(feeds: &[Feed], name: &[u8]) -> Option<usize>
    ensures exact { result ≡ position (λ feed. bytes_eq feed.name name.now) feeds.now }
    ensures within { IfSome result (λ feed. feed < length feeds.now) }
{
    feeds
        .iter()
        .position(|feed| is_word(feed.name.as_bytes(), name))
}

/// The number of the table with this name.
pub fn find_table(accepted: &AcceptedDesc, name: &[u8]) -> Option<u16>
    ensures exact { result ≡ find_table accepted.now.desc name.now }
    ensures within { IfSome result (λ table. table < length accepted.now.desc.tables) }
{
    match place_of_table(&accepted.desc.tables, name) {
        Some(table) => Some(table as u16),
        None => None,
    }
}

/// The place of the table with this name.
pub fn place_of_table(tables: &[Table], name: &[u8]) -> Option<usize>
    ensures exact { result ≡ position (λ table. bytes_eq table.name name.now) tables.now }
    ensures within { IfSome result (λ table. table < length tables.now) }
{
    tables
        .iter()
        .position(|table| is_word(table.name.as_bytes(), name))
}

/// The columns of a source, none if there is no such table.
pub fn source_columns<'a>(desc: &'a Desc, source: &WrittenSource) -> &'a [Column]
    ensures exact { result.now ≡ source_columns desc.now source.now.table }
{
    match place_of_table(&desc.tables, source.table) {
        Some(table) => &desc.tables[table].columns,
        None => &[],
    }
}

/// The width of a source, 1 if there is no such table.
pub fn source_width(desc: &Desc, source: &WrittenSource) -> Width
    ensures exact { result ≡ source_width desc.now source.now.table }
{
    match place_of_table(&desc.tables, source.table) {
        Some(table) => desc.tables[table].width,
        None => Width::new(1),
    }
}

/// The place of the column with this name.
pub fn place_of_column(columns: &[Column], name: &[u8]) -> Option<usize>
    ensures exact { result ≡ find_column columns.now name.now }
    ensures within { IfSome result (λ column. column < length columns.now) }
{
    columns
        .iter()
        .position(|column| is_word(column.name.as_bytes(), name))
}

/// The type of the column with this name.
pub fn find_type(columns: &[Column], name: &[u8]) -> Option<Ty>
    ensures exact { result ≡ find_type columns.now name.now }
{
    match place_of_column(columns, name) {
        Some(column) => Some(columns[column].ty),
        None => None,
    }
}

/// The type that a word says.
pub fn read_type(word: &[u8]) -> Option<Ty>
    ensures exact { result ≡ read_type word.now }
{
    if is_word(word, b"int") {
        Some(Ty::Int)
    } else if is_word(word, b"text") {
        Some(Ty::Text)
    } else {
        None
    }
}
