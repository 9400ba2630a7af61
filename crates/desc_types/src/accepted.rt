//! Descriptions that were accepted.

ghost use Rattle.std.specs.Prelude.{◌≡◌, ◌<◌, ◌≤◌, Some, length, slice_get};
ghost use Rattle.desc_types.specs.Accepted.{IsAccepted};
ghost use Rattle.desc_types.specs.AcceptedProps.{accepted_props};
ghost use Rattle.desc_types.specs.Served.{IsServed};

use crate::{Desc, Table};

/// A description that was accepted, as the lines of a text declare it:
/// at most 16 feeds, at most 64 tables of at most 16 columns, and each view reads earlier tables,
/// over spans that fit.
#[derive(Debug, Drop)]
pub struct AcceptedDesc {
    pub desc: Desc,
    pub ghost is_accepted: { IsAccepted desc } by { Prim.hlevel accepted_props },
    pub ghost is_served: { IsServed desc },
}

impl AcceptedDesc {
    /// A description that was accepted.
    pub fn new(desc: Desc) -> AcceptedDesc
        requires accepted { IsAccepted desc }
        ensures exact { result.desc ≡ desc }
    {
        AcceptedDesc { desc }
    }

    /// The table with this number.
    pub fn table(&self, number: u16) -> &Table
        requires within { number < length self.now.desc.tables }
        ensures exact { slice_get self.now.desc.tables number ≡ Some result.now }
        ensures few { length result.now.columns ≤ 16 }
    {
        &self.desc.tables[usize::from(number)]
    }
}
