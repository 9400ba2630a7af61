//! The raw partitions that a partition rests on, as runs. They are looked for table by table, from
//! the partition's own down to the first, since what a view reads is of earlier tables.
//!
//! A wide view rests on too many raw partitions to list. So runs of partitions wait to be looked at,
//! and those of one table are joined before.

ghost use Rattle.std.specs.Prelude.{◌≡◌, ◌≤◌, ◌<◌, ◌+◌, ◌∷◌, [], ◌||◌, Bool, IfOk, IfSome, OnOk};
ghost use Rattle.std.specs.Prelude.{All, length, true};
ghost use Rattle.std.specs.List.{list_any};
ghost use Rattle.desc_types.specs.declared.table.Key.{Key as KeyOf};
ghost use Rattle.desc_types.specs.declared.view.Src.{Src as SrcOf};
ghost use Rattle.desc_types.specs.Sources.{kind_sources};
ghost use Rattle.partition_map.specs.Time.{END};
ghost use Rattle.view_meaning.specs.Partitions.{is_among, is_part};
ghost use Rattle.view_meaning.specs.RawBelow.{raw_below};
ghost use Rattle.depot_marks.specs.Below.{IsSearchOf, LooksAt, Puts, keys_of_waiting};
ghost use Rattle.depot_marks.specs.Below.{keys_read_by, keys_waiting};
ghost use Rattle.depot_marks.specs.MarkBooks.{IsRawPart};
ghost use Rattle.depot_marks.specs.Runs.{keys_in, run_of};
ghost use Rattle.depot_marks.specs.Windows.{BeginsInTime};

use crate::run::Run;
use crate::windows::sources_of_run;
use depot_cell::Memory;
use desc_types::{AcceptedDesc, Key, Kind, Src, Table, Width};
use partition_map::Parts;
use std::alloc::Global;
use std::collections::BTreeSet;
use view_meaning::source_parts;

/// Partitions of a table that wait to be looked at: from `first` up to, but not including, `end`.
/// They are ordered by table, then by first partition.
#[derive(Clone, Copy, Debug, PartialEq, Eq, PartialOrd, Ord)]
struct WaitingRun {
    table: u16,
    first: u64,
    end: u64,
}

/// What was found so far: raw partitions, and partitions that are still to be looked at.
#[derive(Debug, Drop)]
struct Search {
    found: Vec<Run>,
    waiting: BTreeSet<WaitingRun>,
}

/// The runs of raw partitions that a partition rests on: a raw one is below itself. It costs by
/// runs, not by partitions, as long as what neighbours in a view read of a source overlaps or
/// touches. If they leave out partitions between them, each reads a run of its own.
pub fn raw_runs_below(alloc: Global, served: &AcceptedDesc, key: Key) -> Result<Vec<Run>, Memory>
    requires part { is_part served.now.desc key ≡ true }
    ensures exact { IfOk result (λ runs. (other : KeyOf)
        → is_among (keys_in runs.items) other ≡ is_among (raw_below served.now.desc key) other) }
    ensures raw { IfOk result (λ runs. All (IsRawPart served.now.desc) (keys_in runs.items)) }
{
    let mut search = Search {
        found: Vec::new(alloc),
        waiting: BTreeSet::new(alloc),
    };
    let own = Parts {
        first: key.part,
        count: 1,
    };
    put_run(key.table, own, &mut search.waiting)?;
    let mut table = key.table;
    loop {
        pass_table(served, table, &mut search)?;
        if table == 0 {
            return Ok(search.found);
        }
        table -= 1;
    }
}

/// Looks at all partitions of a table that wait, if none of a later one does. Then those that wait
/// are of earlier tables.
fn pass_table(served: &AcceptedDesc, table: u16, search: &mut Search) -> Result<(), Memory>
    requires parts { All (λ key. is_part served.now.desc key ≡ true)
        (keys_waiting search.old.waiting.keys) }
    ensures ok { OnOk result ((key : KeyOf) → IsSearchOf served.now.desc key (table + 1) search.old
        → IsSearchOf served.now.desc key table search.new) }
{
    let here = search.waiting.split_off(&WaitingRun {
        table,
        first: 0,
        end: 0,
    })?;
    look_at_all(served, here, search)
}

/// Looks at runs. Those that overlap or touch are joined first, so that a partition that several
/// others read is looked at once.
fn look_at_all(
    served: &AcceptedDesc,
    mut here: BTreeSet<WaitingRun>,
    search: &mut Search,
) -> Result<(), Memory>
    requires parts { All (λ key. is_part served.now.desc key ≡ true) (keys_waiting here.keys) }
    ensures ok { OnOk result
        (LooksAt served.now.desc (keys_waiting here.keys) search.old search.new) }
{
    let Some(mut run) = here.pop_first() else {
        return Ok(());
    };
    while let Some(next) = here.pop_first() {
        match joined(run, next) {
            Some(both) => run = both,
            None => {
                look_at(served, run, search)?;
                run = next;
            }
        }
    }
    look_at(served, run, search)
}

/// Two runs as one, if they are of one table and overlap or touch.
fn joined(run: WaitingRun, next: WaitingRun) -> Option<WaitingRun>
    ensures exact { IfSome result (λ both. (test : KeyOf → Bool)
        → list_any test (keys_of_waiting both)
        ≡ (list_any test (keys_of_waiting run) || list_any test (keys_of_waiting next))) }
{
    if run.table != next.table || run.end < next.first || next.end < run.first {
        return None;
    }
    Some(WaitingRun {
        table: run.table,
        first: run.first.min(next.first),
        end: run.end.max(next.end),
    })
}

/// Looks at a run of partitions: a raw one is found, and of another the sources have to wait.
fn look_at(served: &AcceptedDesc, run: WaitingRun, search: &mut Search) -> Result<(), Memory>
    requires parts { All (λ key. is_part served.now.desc key ≡ true) (keys_of_waiting run) }
    ensures ok { OnOk result
        (LooksAt served.now.desc (keys_of_waiting run) search.old search.new) }
{
    if run.end <= run.first {
        return Ok(());
    }
    let table = served.table(run.table);
    let parts = Parts {
        first: run.first,
        count: run.end - run.first,
    };
    match &table.kind {
        Kind::Raw { .. } => {
            search.found.push(Run {
                table: run.table,
                parts,
            })?;
            Ok(())
        }
        Kind::Filter { .. } | Kind::Group { .. } | Kind::Join { .. } => {
            put_sources(served, table, parts, &mut search.waiting)
        }
    }
}

/// Puts the partitions that a run of partitions of a table reads among those that wait.
fn put_sources(
    served: &AcceptedDesc,
    table: &Table,
    parts: Parts,
    waiting: &mut BTreeSet<WaitingRun>,
) -> Result<(), Memory>
    requires declared { All (λ (src : SrcOf). src.table < length served.now.desc.tables)
        (kind_sources table.now.kind) }
    requires in_time { BeginsInTime table.now.width parts }
    ensures ok { OnOk result (Puts
        (keys_read_by served.now.desc table.now.width parts (kind_sources table.now.kind))
        waiting.old.keys waiting.new.keys) }
{
    match &table.kind {
        Kind::Raw { .. } => Ok(()),
        Kind::Filter { src, .. } => put_source(served, table.width, parts, *src, waiting),
        Kind::Group { src, .. } => put_source(served, table.width, parts, *src, waiting),
        Kind::Join { left, right, .. } => {
            put_source(served, table.width, parts, *left, waiting)?;
            put_source(served, table.width, parts, *right, waiting)
        }
    }
}

/// Puts the partitions of a source that a run of a view's partitions reads among those that wait.
fn put_source(
    served: &AcceptedDesc,
    width: Width,
    parts: Parts,
    src: Src,
    waiting: &mut BTreeSet<WaitingRun>,
) -> Result<(), Memory>
    requires declared { src.table < length served.now.desc.tables }
    requires in_time { BeginsInTime width parts }
    ensures ok { OnOk result (Puts (keys_read_by served.now.desc width parts (src ∷ []))
        waiting.old.keys waiting.new.keys) }
{
    // If so, what neighbours read overlaps or touches.
    if src.span.lo <= src.span.hi {
        let source_width = served.table(src.table).width;
        let sources = sources_of_run(width, source_width, src.span, parts);
        put_run(src.table, sources, waiting)
    } else {
        put_each(served, width, parts, src, waiting)
    }
}

/// Puts what a run of a view's partitions reads of a source among those that wait, a run for each
/// partition.
fn put_each(
    served: &AcceptedDesc,
    width: Width,
    parts: Parts,
    src: Src,
    waiting: &mut BTreeSet<WaitingRun>,
) -> Result<(), Memory>
    requires in_time { BeginsInTime width parts }
    ensures ok { OnOk result (Puts (keys_read_by served.now.desc width parts (src ∷ []))
        waiting.old.keys waiting.new.keys) }
{
    for index in 0..parts.count {
        let part = parts.first + index;
        put_run(
            src.table,
            source_parts(&served.desc, width, part, src),
            waiting,
        )?;
    }
    Ok(())
}

/// Puts a run of partitions of a table among those that wait.
fn put_run(table: u16, parts: Parts, waiting: &mut BTreeSet<WaitingRun>) -> Result<(), Memory>
    requires within { parts.first + parts.count ≤ END }
    ensures ok { OnOk result
        (Puts (run_of table parts.first parts.count) waiting.old.keys waiting.new.keys) }
{
    let run = WaitingRun {
        table,
        first: parts.first,
        end: parts.first + parts.count,
    };
    match waiting.insert(run) {
        Ok(_) => Ok(()),
        Err(_) => Err(Memory),
    }
}
