//! What a stop leaves of a file, by a pick.

ghost use Rattle.std.specs.Prelude.{◌≡◌, ◌≤◌, ◌==◌, if◌then◌else◌, length, take, vec_items, option_map, IfOk};
ghost use Rattle.depot_disk.specs.Life.{Wrote, content_after, content_of};
ghost use Rattle.depot_disk.specs.Picks.{before_of, is_sync_of, is_touched, pick_byte, picked};
ghost use Rattle.depot_disk.specs.Picks.{scrambled, touches};
ghost use Rattle.depot_disk.specs.Record.{life_of};
ghost use Rattle.depot_disk.specs.MemDisk.{change_of, steps_of};

use crate::files::overwrite;
use crate::step::{Act, Step};
use depot_cell::Memory;
use std::alloc::Global;

/// What a pick leaves of a file that has these steps among others.
pub(crate) fn pick_file(
    alloc: Global,
    steps: &[Step],
    file: u64,
    pick: u64,
) -> Result<Option<Vec<u8>>, Memory>
    ensures exact { IfOk result (λ content. option_map vec_items content
        ≡ picked pick (life_of file (steps_of steps.now))) }
{
    if pick == 0 {
        return before(alloc, steps, file);
    }
    if pick == 1 {
        return content(alloc, steps, file);
    }
    match content(alloc, steps, file)? {
        Some(bytes) => Ok(Some(scramble(alloc, &bytes, steps, file, pick)?)),
        None => match before(alloc, steps, file)? {
            Some(bytes) => Ok(Some(scramble(alloc, &bytes, steps, file, pick)?)),
            None => Ok(None),
        },
    }
}

/// What the file holds.
fn content(alloc: Global, steps: &[Step], file: u64) -> Result<Option<Vec<u8>>, Memory>
    ensures exact { IfOk result (λ content. option_map vec_items content
        ≡ content_of (life_of file (steps_of steps.now))) }
{
    let mut content = None;
    for step in steps {
        content = after_step(alloc, content, step, file)?;
    }
    Ok(content)
}

/// What a file holds after a step, which may be one of another file.
fn after_step(
    alloc: Global,
    content: Option<Vec<u8>>,
    step: &Step,
    file: u64,
) -> Result<Option<Vec<u8>>, Memory>
    ensures exact { IfOk result (λ new. option_map vec_items new ≡ (if file == step.now.file
        then content_after (change_of step.now.act) (option_map vec_items content)
        else option_map vec_items content)) }
{
    if file != step.file {
        return Ok(content);
    }
    after_act(alloc, content, &step.act)
}

/// What the file holds after an act.
fn after_act(alloc: Global, content: Option<Vec<u8>>, act: &Act) -> Result<Option<Vec<u8>>, Memory>
    ensures exact { IfOk result (λ new. option_map vec_items new
        ≡ content_after (change_of act.now) (option_map vec_items content)) }
{
    match act {
        Act::Write { at, bytes } => after_write(alloc, content, *at, bytes),
        Act::Sync => Ok(content),
        Act::Remove => Ok(None),
    }
}

/// What the file holds after a write.
fn after_write(
    alloc: Global,
    content: Option<Vec<u8>>,
    at: u64,
    bytes: &[u8],
) -> Result<Option<Vec<u8>>, Memory>
    ensures exact { IfOk result (λ new. option_map vec_items new
        ≡ content_after (Wrote at bytes.now) (option_map vec_items content)) }
{
    let mut whole = match content {
        Some(old) => old,
        None => Vec::new(alloc),
    };
    overwrite(&mut whole, at, bytes)?;
    Ok(Some(whole))
}

/// What the file held at its last sync.
fn before(alloc: Global, steps: &[Step], file: u64) -> Result<Option<Vec<u8>>, Memory>
    ensures exact { IfOk result (λ content. option_map vec_items content
        ≡ before_of (life_of file (steps_of steps.now))) }
{
    content(alloc, &steps[..synced(steps, file)], file)
}

/// How many steps there were before the last sync of the file, or 0.
fn synced(steps: &[Step], file: u64) -> usize
    ensures within { result ≤ length steps.now }
    ensures exact { content_of (life_of file (steps_of (take result steps.now)))
        ≡ before_of (life_of file (steps_of steps.now)) }
{
    let mut count = 0;
    for (index, step) in steps.iter().enumerate() {
        count = later_sync(count, index, step, file);
    }
    count
}

/// The index of a step that is a sync of the file, or else the count from before.
fn later_sync(count: usize, index: usize, step: &Step, file: u64) -> usize
    ensures exact { result ≡ (if is_sync_of file step.now.file (change_of step.now.act)
        then index else count) }
{
    if is_sync_of(step, file) { index } else { count }
}

/// Whether a step is a sync of the file.
fn is_sync_of(step: &Step, file: u64) -> bool
    ensures exact { result ≡ is_sync_of file step.now.file (change_of step.now.act) }
{
    match step.act {
        Act::Write { .. } | Act::Remove => false,
        Act::Sync => file == step.file,
    }
}

/// Bytes with the pick's own at each place that was touched.
fn scramble(
    alloc: Global,
    bytes: &[u8],
    steps: &[Step],
    file: u64,
    pick: u64,
) -> Result<Vec<u8>, Memory>
    ensures exact { IfOk result (λ new. new.items
        ≡ scrambled (is_touched (life_of file (steps_of steps.now))) pick 0 bytes.now) }
{
    let mut new = Vec::new(alloc);
    for (place, byte) in bytes.iter().enumerate() {
        new.push(byte_at(*byte, steps, file, pick, place as u64))?;
    }
    Ok(new)
}

/// The byte of a place: the pick's own, if the place was touched.
fn byte_at(byte: u8, steps: &[Step], file: u64, pick: u64, place: u64) -> u8
    ensures exact { result ≡ (if is_touched (life_of file (steps_of steps.now)) place
        then pick_byte pick place else byte) }
{
    if is_touched(steps, file, place) {
        ((pick % 256 + place % 256) % 256) as u8
    } else {
        byte
    }
}

/// Whether a place was written since the file's last sync, or the file was removed since.
fn is_touched(steps: &[Step], file: u64, place: u64) -> bool
    ensures exact { result ≡ is_touched (life_of file (steps_of steps.now)) place }
{
    let mut touched = false;
    for step in steps {
        touched = touches(step, file, place, touched);
    }
    touched
}

/// Whether a place is touched after a step.
fn touches(step: &Step, file: u64, place: u64, was: bool) -> bool
    ensures exact { result ≡ (if file == step.now.file
        then touches (change_of step.now.act) place was else was) }
{
    if file != step.file {
        return was;
    }
    match &step.act {
        Act::Write { at, bytes } => { (*at <= place && place - *at < bytes.len() as u64) || was }
        Act::Sync => false,
        Act::Remove => true,
    }
}
