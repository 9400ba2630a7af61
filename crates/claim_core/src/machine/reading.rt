//! The sources of a partition: whether they are settled, and which versions of them are read to
//! compute it.

ghost use Rattle.std.specs.Prelude.{◌≡◌, ◌++◌, ◌∷◌, [], IfOk, OnOk, filter, flat_map, length, take};
ghost use Rattle.std.specs.List.{list_all};
ghost use Rattle.desc_types.specs.Sources.{kind_sources};
ghost use Rattle.partition_map.specs.Partitions.{is_met};
ghost use Rattle.partition_map.specs.Time.{END as the_end};
ghost use Rattle.view_meaning.specs.Partitions.{is_part, keys_read, sources_of};
ghost use Rattle.view_meaning.specs.Staleness.{is_settled};
ghost use Rattle.machine_meaning.specs.States.{inputs, is_some_version};
ghost use Rattle.claim_core.specs.Cores.{inputs_read, left_inputs};

use crate::machine::Core;
use crate::reads::Reads;
use depot_cell::Memory;
use desc_types::{END, Key, Kind, Src, Table, Width};
use query_pin::Input;
use std::alloc::Global;
use view_meaning::source_parts;

impl Core {
    /// Whether a key names a partition: its table is there, and it begins in time.
    pub fn is_part(&self, key: Key) -> bool
        ensures exact { result ≡ is_part self.now.desc key }
    {
        match self.served.desc.tables.get(usize::from(key.table)) {
            Some(table) => begins_in_time(table.width, key.part),
            None => false,
        }
    }

    /// Whether all sources of a partition are settled.
    pub(super) fn has_settled_sources(&self, key: Key) -> bool
        ensures exact { result ≡ list_all (is_settled self.now.desc self.now.state.journal)
            (sources_of self.now.desc key) }
    {
        match self.served.desc.tables.get(usize::from(key.table)) {
            Some(table) => self.is_settled_below(table, key.part),
            None => true,
        }
    }

    /// Whether all that a partition of a table reads is settled.
    fn is_settled_below(&self, table: &Table, part: u64) -> bool
        ensures exact { result ≡ list_all (is_settled self.now.desc self.now.state.journal)
            (flat_map (keys_read self.now.desc table.now.width part)
            (kind_sources table.now.kind)) }
    {
        match &table.kind {
            Kind::Raw { .. } => true,
            Kind::Filter { src, .. } => self.is_source_settled(table.width, part, *src),
            Kind::Group { src, .. } => self.is_source_settled(table.width, part, *src),
            Kind::Join { left, right, .. } => {
                self.is_source_settled(table.width, part, *left)
                    && self.is_source_settled(table.width, part, *right)
            }
        }
    }

    /// Whether the partitions of a source that a view's partition reads are settled.
    fn is_source_settled(&self, width: Width, part: u64, src: Src) -> bool
        ensures exact { result ≡ list_all (is_settled self.now.desc self.now.state.journal)
            (flat_map (keys_read self.now.desc width part) (src ∷ [])) }
    {
        let read = source_parts(&self.served.desc, width, part, src);
        for part in read.first..read.first + read.count {
            let source = Key {
                table: src.table,
                part,
            };
            if !self.stale.is_settled(source) {
                return false;
            }
        }
        true
    }

    /// The versions that are read to compute a partition as the journal stands.
    pub(super) fn reads(&self, alloc: Global, key: Key) -> Result<Reads, Memory>
        ensures inputs { IfOk result (λ reads. reads.inputs.items
            ≡ inputs self.now.desc self.now.state.journal key) }
        ensures left { IfOk result (λ reads. reads.left
            ≡ length (left_inputs self.now.desc self.now.state.journal key)) }
    {
        match self.served.desc.tables.get(usize::from(key.table)) {
            Some(table) => self.reads_below(alloc, table, key.part),
            None => Ok(Reads::none(alloc)),
        }
    }

    /// The versions that are read to compute a partition of a table.
    fn reads_below(&self, alloc: Global, table: &Table, part: u64) -> Result<Reads, Memory>
        ensures inputs { IfOk result (λ reads. reads.inputs.items
            ≡ inputs_read self.now.desc self.now.state.journal table.now.width part
            (kind_sources table.now.kind)) }
        ensures left { IfOk result (λ reads. reads.left
            ≡ length (inputs_read self.now.desc self.now.state.journal table.now.width part
            (take 1 (kind_sources table.now.kind)))) }
    {
        match &table.kind {
            Kind::Raw { .. } => Ok(Reads::none(alloc)),
            Kind::Filter { src, .. } => self.source_reads(alloc, table.width, part, *src),
            Kind::Group { src, .. } => self.source_reads(alloc, table.width, part, *src),
            Kind::Join { left, right, .. } => {
                let mut reads = self.source_reads(alloc, table.width, part, *left)?;
                self.push_inputs(table.width, part, *right, &mut reads.inputs)?;
                Ok(reads)
            }
        }
    }

    /// The versions that are read of a left source, or of the only one.
    fn source_reads(
        &self,
        alloc: Global,
        width: Width,
        part: u64,
        src: Src,
    ) -> Result<Reads, Memory>
        ensures inputs { IfOk result (λ reads. reads.inputs.items
            ≡ inputs_read self.now.desc self.now.state.journal width part (src ∷ [])) }
        ensures left { IfOk result (λ reads. reads.left
            ≡ length (inputs_read self.now.desc self.now.state.journal width part (src ∷ []))) }
    {
        let mut inputs = Vec::new(alloc);
        self.push_inputs(width, part, src, &mut inputs)?;
        let left = inputs.len() as u64;
        Ok(Reads { inputs, left })
    }

    /// Puts the versions of the partitions of a source that a view's partition reads at the end,
    /// without empty ones.
    fn push_inputs(
        &self,
        width: Width,
        part: u64,
        src: Src,
        inputs: &mut Vec<Input>,
    ) -> Result<(), Memory>
        ensures ok { OnOk result (inputs.new.items ≡ inputs.old.items
            ++ inputs_read self.now.desc self.now.state.journal width part (src ∷ [])) }
    {
        let read = source_parts(&self.served.desc, width, part, src);
        for part in read.first..read.first + read.count {
            let source = Key {
                table: src.table,
                part,
            };
            push_version(source, self.stale.version(source), inputs)?;
        }
        Ok(())
    }
}

/// Puts a version of a partition at the end, unless it is the empty one.
fn push_version(key: Key, version: u64, inputs: &mut Vec<Input>) -> Result<(), Memory>
    ensures ok { OnOk result (inputs.new.items ≡ inputs.old.items
        ++ filter is_some_version (record { key = key; version = version } ∷ [])) }
{
    if version > 0 {
        inputs.push(Input { key, version })?;
    }
    Ok(())
}

/// Whether a partition of a table with this width begins in time.
fn begins_in_time(width: Width, part: u64) -> bool
    ensures exact { result ≡ is_met width 0 the_end part }
{
    part.saturating_mul(width.ticks()) < END
}
