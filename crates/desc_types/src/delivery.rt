//! Deliveries and their rows.

use depot_cell::Row;
use std::marker::Model;

/// A row of a delivery: the number of its record, from 1, its table and its cells.
#[derive(Debug, Drop)]
pub struct DRow {
    pub number: u32,
    pub table: u16,
    pub cells: Row,
}

/// A delivery of a feed. `closes` is a tick or [`crate::END`]: rows below it are not expected in
/// later deliveries of the feed.
#[derive(Debug, Drop)]
pub struct Delivery {
    pub feed: u16,
    pub number: u32,
    pub closes: u64,
    pub rows: Vec<DRow>,
}

impl Model for Delivery {
    ghost use Rattle.desc_types.specs.Deliveries.{DeliveryOf};

    ghost Value = { DeliveryOf };

    ghost view = { λ delivery. record {
      feed = delivery.feed;
      number = delivery.number;
      closes = delivery.closes;
      rows = delivery.rows.items;
    } };
}
