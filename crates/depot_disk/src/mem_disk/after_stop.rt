//! A disk as a stop leaves it.

ghost use Rattle.std.specs.Prelude.{◌≡◌, ℕ, IfOk, OnOk, None, vec_items, option_map, is_some};
ghost use Rattle.depot_disk.specs.Life.{IsSettled, Wrote};
ghost use Rattle.depot_disk.specs.Picks.{picked};
ghost use Rattle.depot_disk.specs.Record.{LeftBy, held_by, life_of};
ghost use Rattle.depot_disk.specs.MemDisk.{step_of, steps_of};
ghost use Rattle.depot_disk.specs.After.{DoesPicked, PutsWhole};

use super::MemDisk;
use crate::files::has_file;
use crate::pick::pick_file;
use crate::step::Step;
use depot_cell::Memory;

impl MemDisk {
    /// One of the images that a stop may leave now. Pick 0 has nothing that was done since the last
    /// syncs, and pick 1 has all of it. Any other pick has bytes of its own wherever something was
    /// done since. A stop leaves the new disk as it is. The time is that of the square of the
    /// record: all steps are looked at for each file, and for each byte of a pick from 2 on.
    pub fn after_stop(&self, pick: u64) -> Result<MemDisk, Memory>
        ensures exact { IfOk result (λ disk. (file : ℕ) → held_by disk.steps file
            ≡ picked pick (life_of file self.now.steps)) }
        ensures left { IfOk result (λ disk. LeftBy self.now.steps (held_by disk.steps)) }
        ensures settled { IfOk result (λ disk. (file : ℕ) → IsSettled (life_of file disk.steps)) }
        ensures faults { IfOk result (λ disk. disk.faults ≡ 0) }
    {
        let mut disk = MemDisk::new(*self.steps.allocator());
        for step in &self.steps {
            disk.put_picked(&self.steps, step, pick)?;
        }
        Ok(disk)
    }

    /// Puts the file of a step as the pick leaves it, unless it is there.
    fn put_picked(&mut self, steps: &[Step], step: &Step, pick: u64) -> Result<(), Memory>
        ensures exact { OnOk result (DoesPicked pick (steps_of steps.now) (step_of step.now)
            self.old.steps self.new.steps) }
        ensures faults { self.new.faults ≡ self.old.faults }
    {
        if self.has(step.file) {
            return Ok(());
        }
        let content = pick_file(*self.steps.allocator(), steps, step.file, pick)?;
        self.put_whole(step.file, content)
    }

    /// Whether a file is there.
    fn has(&self, file: u64) -> bool
        ensures exact { result ≡ is_some (held_by self.now.steps file) }
    {
        has_file(&self.files, file)
    }

    /// Puts a file onto the disk and syncs it, if there is one.
    fn put_whole(&mut self, file: u64, content: Option<Vec<u8>>) -> Result<(), Memory>
        ensures exact { OnOk result
            (PutsWhole file (option_map vec_items content) self.old.steps self.new.steps) }
        ensures faults { self.new.faults ≡ self.old.faults }
    {
        let Some(bytes) = content else {
            return Ok(());
        };
        self.may_write(file, 0, &bytes)?;
        self.may_sync(file)
    }
}
