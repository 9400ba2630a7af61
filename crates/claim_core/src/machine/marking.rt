//! The marks of what a request asks for. Nothing is pinned, since no rows are read.

ghost use Rattle.std.specs.Prelude.{◌≡◌, ◌++◌, IfOk, None, OnOk, false, flat_map};
ghost use Rattle.view_meaning.specs.Shown.{marks_shown};
ghost use Rattle.query_pin.specs.Requests.{is_bad_range, lacks_table, request_fault};

use crate::machine::Core;
use depot_cell::Memory;
use desc_types::Key;
use query_pin::Request;
use std::alloc::Global;
use view_meaning::{Item, MarkItem};

impl Core {
    /// The mark of each partition that a request asks for, item by item. Levels leave nothing out.
    pub fn marks(&self, alloc: Global, request: &Request) -> Result<Vec<MarkItem>, Memory>
        requires accepted { request_fault self.now.desc request.now ≡ None }
        ensures exact { IfOk result (λ marks. marks.items
            ≡ flat_map (marks_shown self.now.desc self.now.state.journal) request.now) }
    {
        let mut marks = Vec::new(alloc);
        for &item in &request.items {
            self.push_marks(alloc, item, &mut marks)?;
        }
        Ok(marks)
    }

    /// Puts the mark of each partition that an item asks for at the end.
    fn push_marks(&self, alloc: Global, item: Item, marks: &mut Vec<MarkItem>) -> Result<(), Memory>
        requires there { lacks_table self.now.desc item ≡ false }
        requires range { is_bad_range item ≡ false }
        ensures ok { OnOk result (marks.new.items ≡ marks.old.items
            ++ marks_shown self.now.desc self.now.state.journal item) }
    {
        let asked = self.parts_of(item);
        for part in asked.first..asked.first + asked.count {
            let key = Key {
                table: item.table,
                part,
            };
            let mark = self.mark(alloc, key)?;
            marks.push(MarkItem { key, mark })?;
        }
        Ok(())
    }
}
