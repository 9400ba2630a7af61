//! Cases: a view over two raw tables, the rows that a body brings, and what the view makes of them.
//!
//! The raw tables `l` and `r` have the columns t, a, n and b: a tick, a text, an int and a text.
//! The view is table 2, and its first partition has the ticks below 40.

use depot_cell::{Memory, Rows};
use depot_script::rows_text;
use desc_types::{AcceptedDesc, Delivery, Desc, Key, Kind};
use feed_csv::{DeliveryFault, read_delivery};
use std::alloc::Global;
use std::sync::Arc;
use std::test::Fail;
use table_desc::Draft;
use view_eval::eval;
use view_filter::filter;
use view_group::group;
use view_join::join;
use view_meaning::plain_value;

/// What a view is, after its width; the rows that are delivered; and the rows that it makes.
pub type Case = (&'static str, &'static str, &'static str);

/// A case whose rows were read.
#[derive(Drop)]
pub struct Given {
    served: AcceptedDesc,
    accepted: Vec<Delivery>,
    pub left: Vec<Arc<Rows>>,
    pub right: Vec<Arc<Rows>>,
}

impl Given {
    /// Reads a view and a body, with the raw tables in parts of so many ticks.
    pub fn read(alloc: Global, cut: u64, view: &str, body: &[u8]) -> Result<Given, Fail> {
        let served = described(alloc, cut, view)?;
        let mut accepted = Vec::new(alloc);
        accepted.push(delivered(alloc, &served, body)?)?;
        let count = 40_u64.checked_div(cut).unwrap_or(0);
        let left = parts(alloc, &served.desc, &accepted, 0, count)?;
        let right = parts(alloc, &served.desc, &accepted, 1, count)?;
        Ok(Given {
            served,
            accepted,
            left,
            right,
        })
    }

    /// What the operator of the view makes, called by itself.
    fn operated(&self, alloc: Global) -> Result<Rows, Fail> {
        let view = self.served.desc.tables.last().ok_or("a view")?;
        match &view.kind {
            Kind::Raw { .. } => Err(Fail::new("no operator")),
            Kind::Filter { conds, keep, .. } => Ok(filter(alloc, &self.left, conds, keep)?),
            Kind::Group { keys, aggs, .. } => Ok(group(alloc, &self.left, keys, aggs)?),
            Kind::Join { on, .. } => Ok(join(alloc, &self.left, &self.right, on)?),
        }
    }

    /// The text of what a table makes of the sources.
    pub fn evaluated(&self, alloc: Global, table: u16) -> Result<Vec<u8>, Memory> {
        let rows = eval(alloc, &self.served.desc, table, &self.left, &self.right)?;
        rows_text(alloc, &rows)
    }

    /// The text of what the plain program makes of the view.
    pub fn plain(&self, alloc: Global) -> Result<Vec<u8>, Memory> {
        let key = Key { table: 2, part: 0 };
        let rows = plain_value(alloc, &self.served.desc, &self.accepted, key)?;
        rows_text(alloc, &rows)
    }

    /// Whether the view makes this text, by its operator, by `eval` and by the plain program.
    pub fn makes(&self, alloc: Global, want: &[u8]) -> Result<bool, Fail> {
        let operated = rows_text(alloc, &self.operated(alloc)?)?;
        let evaluated = self.evaluated(alloc, 2)?;
        let plain = self.plain(alloc)?;
        Ok(operated.as_slice() == want && evaluated.as_slice() == want && plain.as_slice() == want)
    }
}

/// Expects what the cases say, if each tick is a part of a source, if ten are one, and if all are.
pub fn expect_cases(alloc: Global, cases: &[Case]) -> Result<(), Fail> {
    for &(view, body, want) in cases {
        for cut in &[1, 10, 40] {
            if !Given::read(alloc, *cut, view, body.as_bytes())?.makes(alloc, want.as_bytes())? {
                return Err(Fail::new(want));
            }
        }
    }
    Ok(())
}

/// The description of a case.
fn described(alloc: Global, cut: u64, view: &str) -> Result<AcceptedDesc, Fail> {
    let columns = "t:int a:text n:int b:text";
    let left = format!(in alloc; "raw l feed f width {cut} time t cols {columns}")?;
    let right = format!(in alloc; "raw r feed f width {cut} time t cols {columns}")?;
    let view = format!(in alloc; "view v width 40 {view}")?;
    let draft = Draft::new(alloc)
        .with_line(alloc, b"feed f")?
        .with_line(alloc, left.as_bytes())?
        .with_line(alloc, right.as_bytes())?
        .with_line(alloc, view.as_bytes())?;
    match draft.into_read() {
        Ok(accepted) => Ok(accepted),
        Err(bad) => Err(Fail::new(bad.cause.text())),
    }
}

/// The delivery that a body brings.
fn delivered(alloc: Global, served: &AcceptedDesc, body: &[u8]) -> Result<Delivery, Fail> {
    if body.len() > 16_777_216 {
        return Err(Fail::new("a long body"));
    }
    match read_delivery(alloc, served, 0, 1, 0, body) {
        Ok(delivery) => Ok(delivery),
        Err(DeliveryFault::At(bad)) => Err(Fail::new(bad.cause.text())),
        Err(DeliveryFault::Memory) => Err(Fail::new("no memory")),
    }
}

/// The first partitions of a raw table.
fn parts(
    alloc: Global,
    desc: &Desc,
    accepted: &[Delivery],
    table: u16,
    count: u64,
) -> Result<Vec<Arc<Rows>>, Fail> {
    let mut parts = Vec::new(alloc);
    for part in 0..count {
        let rows = plain_value(alloc, desc, accepted, Key { table, part })?;
        parts.push(Arc::new(alloc, rows)?)?;
    }
    Ok(parts)
}
