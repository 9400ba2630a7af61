//! Which partitions of views have to be computed again, by the raw partitions that gained rows
//! since all were settled. For each table in order its partitions are listed by number: those that
//! gained rows, and those that read a listed one of an earlier table.

ghost use Rattle.std.specs.Prelude.{ℕ, true, ◌≡◌, ◌<◌, ◌≤◌, ◌++◌, ◌∷◌, ◌+◌, [], Some};
ghost use Rattle.std.specs.Prelude.{IfOk, OnErr, OnOk, All, flat_map, length, map};
ghost use Rattle.std.specs.Prelude.{slice_get, slice_set, vec_len};
ghost use Rattle.std.specs.List.{range_with_len};
ghost use Rattle.std.specs.List.Sorted.{IsStrictlyIncreasing};
ghost use Rattle.partition_map.specs.Time.{END};
ghost use Rattle.partition_map.specs.Partitions.{start_of, has};
ghost use Rattle.partition_map.specs.Partitions.{dependent_parts, SpanFits};
ghost use Rattle.desc_types.specs.Sources.{table_width, kind_sources};
ghost use Rattle.desc_types.specs.Sources.{HasEarlierSources, HasFittingSources};
ghost use Rattle.view_meaning.specs.Growth.{BeginsWith};
ghost use Rattle.stale_test.specs.PartLists.{AreGained, AreInTime, Gains, keys_of_view};
ghost use Rattle.stale_test.specs.PartLists.{lists_of, parts_at, reads_listed};
ghost use Rattle.view_meaning.specs.Partitions.{is_among, is_part, key_of};
ghost use Rattle.view_meaning.specs.Reached.{reached};

use depot_cell::Memory;
use desc_types::{Desc, Key, Kind, Span, Src, Table, Width};
use partition_map::{Parts, dependents_of};
use std::alloc::Global;

/// The partitions of views that rest on raw ones that gained rows, in order of key. The work is by
/// the partitions that these reach, and never by all partitions of time.
pub fn reached_keys(alloc: Global, desc: &Desc, gained: &[Key]) -> Result<Vec<Key>, Memory>
    requires few { length desc.now.tables ≤ 65_536 }
    requires earlier { HasEarlierSources desc.now }
    requires fits { HasFittingSources desc.now }
    requires parts { All (λ key. is_part desc.now key ≡ true) gained.now }
    ensures exact { IfOk result (λ keys. keys.items ≡ reached desc.now (is_among gained.now)) }
{
    let mut keys = Vec::new(alloc);
    let mut reached = Vec::new(alloc);
    for mut parts in gained_parts(alloc, desc, gained)? {
        let number = reached.len();
        let table = nth_table(desc, number);
        push_above(desc, table, &reached, &mut parts)?;
        sort_parts(&mut parts);
        push_view_keys(number as u16, table, &parts, &mut keys)?;
        push_list(&mut reached, parts)?;
    }
    Ok(keys)
}

/// The table with a number.
pub(crate) fn nth_table(desc: &Desc, number: usize) -> &Table
    requires { number < length desc.now.tables }
    ensures exact { slice_get desc.now.tables number ≡ Some result.now }
{
    &desc.tables[number]
}

/// Puts a list at the end.
fn push_list(lists: &mut Vec<Vec<u64>>, parts: Vec<u64>) -> Result<(), Memory>
    ensures gained { OnOk result (vec_len lists.new ≡ vec_len lists.old + 1) }
    ensures ok { OnOk result
        (lists_of lists.new.items ≡ lists_of lists.old.items ++ parts.items ∷ []) }
    ensures err { OnErr result (lists_of lists.new.items ≡ lists_of lists.old.items) }
{
    match lists.push(parts) {
        Ok(()) => Ok(()),
        Err(_) => Err(Memory),
    }
}

/// Of each table the numbers of its partitions that gained rows.
pub(crate) fn gained_parts(
    alloc: Global,
    desc: &Desc,
    gained: &[Key],
) -> Result<Vec<Vec<u64>>, Memory>
    requires parts { All (λ key. is_part desc.now key ≡ true) gained.now }
    ensures each { IfOk result (λ lists. vec_len lists ≡ length desc.now.tables) }
    ensures exact { IfOk result (λ lists. AreGained (is_among gained.now) (lists_of lists.items)) }
{
    let mut lists = empty_lists(alloc, desc.tables.len())?;
    for key in gained {
        push_part(&mut lists, usize::from(key.table), key.part)?;
    }
    Ok(lists)
}

/// So many lists with no number.
fn empty_lists(alloc: Global, count: usize) -> Result<Vec<Vec<u64>>, Memory>
    ensures each { IfOk result (λ lists. vec_len lists ≡ count) }
    ensures empty { IfOk result (λ lists.
        (table : ℕ) → parts_at (lists_of lists.items) table ≡ []) }
{
    let mut lists = Vec::new(alloc);
    for _ in 0..count {
        if lists.push(Vec::new(alloc)).is_err() {
            return Err(Memory);
        }
    }
    Ok(lists)
}

/// Puts a number at the end of those of a table.
fn push_part(lists: &mut Vec<Vec<u64>>, table: usize, part: u64) -> Result<(), Memory>
    requires { table < vec_len lists.old }
    ensures kept { vec_len lists.new ≡ vec_len lists.old }
    ensures ok { OnOk result (lists_of lists.new.items ≡ slice_set (lists_of lists.old.items) table
        (parts_at (lists_of lists.old.items) table ++ part ∷ [])) }
    ensures err { OnErr result (lists_of lists.new.items ≡ lists_of lists.old.items) }
{
    match lists[table].push(part) {
        Ok(()) => Ok(()),
        Err(_) => Err(Memory),
    }
}

/// Puts at the end the numbers of a table's partitions that read one of those listed.
pub(crate) fn push_above(
    desc: &Desc,
    table: &Table,
    lists: &[Vec<u64>],
    parts: &mut Vec<u64>,
) -> Result<(), Memory>
    requires within { length lists.now ≤ length desc.now.tables }
    requires in_time { AreInTime desc.now (lists_of lists.now) }
    requires earlier { All (λ src. src.table < length lists.now) (kind_sources table.now.kind) }
    requires fits { All (λ src. SpanFits table.now.width (table_width desc.now src.table) src.span)
        (kind_sources table.now.kind) }
    ensures ok { OnOk result (Gains (reads_listed desc.now (lists_of lists.now) table.now.width
        (kind_sources table.now.kind)) parts.old.items parts.new.items) }
    ensures kept { BeginsWith parts.old.items parts.new.items }
{
    match &table.kind {
        Kind::Raw { .. } => Ok(()),
        Kind::Filter { src, .. } => push_readers(desc, table.width, src, lists, parts),
        Kind::Group { src, .. } => push_readers(desc, table.width, src, lists, parts),
        Kind::Join { left, right, .. } => {
            push_readers(desc, table.width, left, lists, parts)?;
            push_readers(desc, table.width, right, lists, parts)
        }
    }
}

/// Puts at the end the numbers of a view's partitions that read one of those listed of a source.
fn push_readers(
    desc: &Desc,
    width: Width,
    src: &Src,
    lists: &[Vec<u64>],
    parts: &mut Vec<u64>,
) -> Result<(), Memory>
    requires within { length lists.now ≤ length desc.now.tables }
    requires in_time { AreInTime desc.now (lists_of lists.now) }
    requires earlier { src.now.table < length lists.now }
    requires fits { SpanFits width (table_width desc.now src.now.table) src.now.span }
    ensures ok { OnOk result (Gains
        (reads_listed desc.now (lists_of lists.now) width (src.now ∷ []))
        parts.old.items parts.new.items) }
    ensures kept { BeginsWith parts.old.items parts.new.items }
{
    push_dependents(
        width,
        width_of(desc, src.table),
        src.span,
        parts_of(lists, src.table),
        parts,
    )
}

/// The numbers listed for a table.
fn parts_of(lists: &[Vec<u64>], table: u16) -> &[u64]
    requires { table < length lists.now }
    ensures exact { result.now ≡ parts_at (lists_of lists.now) table }
{
    &lists[usize::from(table)]
}

/// The width of a table.
fn width_of(desc: &Desc, table: u16) -> Width
    requires { table < length desc.now.tables }
    ensures exact { result ≡ table_width desc.now table }
{
    desc.tables[usize::from(table)].width
}

/// Puts at the end, for each of these partitions of a source, the numbers of the view's partitions
/// that read it.
fn push_dependents(
    width: Width,
    source_width: Width,
    span: Span,
    source_parts: &[u64],
    parts: &mut Vec<u64>,
) -> Result<(), Memory>
    requires fits { SpanFits width source_width span }
    requires in_time { All (λ part. start_of source_width part < END) source_parts.now }
    ensures ok { OnOk result (parts.new.items ≡ parts.old.items
        ++ flat_map (dependent_parts width source_width span) source_parts.now) }
    ensures kept { BeginsWith parts.old.items parts.new.items }
{
    for part in source_parts {
        push_run(dependents_of(width, source_width, span, *part), parts)?;
    }
    Ok(())
}

/// Puts the numbers of a run at the end.
fn push_run(run: Parts, parts: &mut Vec<u64>) -> Result<(), Memory>
    requires within { run.first + run.count ≤ END }
    ensures ok { OnOk result
        (parts.new.items ≡ parts.old.items ++ range_with_len run.first run.count) }
    ensures kept { BeginsWith parts.old.items parts.new.items }
{
    for part in run.first..run.first + run.count {
        parts.push(part)?;
    }
    Ok(())
}

/// Puts numbers in order and leaves out doubles.
pub(crate) fn sort_parts(parts: &mut Vec<u64>)
    ensures rising { IsStrictlyIncreasing parts.new.items }
    ensures same { (part : ℕ) → has parts.new.items part ≡ has parts.old.items part }
{
    parts.sort_unstable();
    parts.dedup();
}

/// Puts at the end the partitions with these numbers, if their table is a view.
fn push_view_keys(
    number: u16,
    table: &Table,
    parts: &[u64],
    keys: &mut Vec<Key>,
) -> Result<(), Memory>
    ensures ok { OnOk result
        (keys.new.items ≡ keys.old.items ++ keys_of_view number table.now.kind parts.now) }
    ensures err { OnErr result (BeginsWith keys.old.items keys.new.items) }
{
    match &table.kind {
        Kind::Raw { .. } => Ok(()),
        Kind::Filter { .. } | Kind::Group { .. } | Kind::Join { .. } => {
            push_keys(number, parts, keys)
        }
    }
}

/// Puts the partitions of a table with these numbers at the end.
pub(crate) fn push_keys(table: u16, parts: &[u64], keys: &mut Vec<Key>) -> Result<(), Memory>
    ensures ok { OnOk result (keys.new.items ≡ keys.old.items ++ map (key_of table) parts.now) }
    ensures err { OnErr result (BeginsWith keys.old.items keys.new.items) }
{
    for part in parts {
        if keys.push(Key { table, part: *part }).is_err() {
            return Err(Memory);
        }
    }
    Ok(())
}
