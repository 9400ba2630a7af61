//! What a value tells and what a pass knows, as plain data. It exists in proofs alone: no value of
//! these types is made.

use std::collections::LinkedList;

/// What of a value only grows.
pub struct Growth<E> {
    /// Each entry with the number of the pass whose turn added it.
    pub log: LinkedList<(u32, E)>,
    pub level: u64,
    /// The pass that first closed it.
    pub closer: Option<u32>,
    /// The first failure, as two numbers.
    pub failure: Option<(u32, u32)>,
}

/// What a value has of one number: the entries under it, and its part.
pub struct Share<E, P> {
    pub entries: LinkedList<E>,
    pub part: P,
}

/// What a pass tells.
pub struct Known<S, E, P> {
    pub number: u32,
    /// How many numbers after its own it can give to passes that are split off.
    pub room: u32,
    /// The number of the pass that it was split off from.
    pub parent: Option<u32>,
    /// How many passes were split off and are not joined.
    pub to_join: u32,
    pub start: Option<S>,
    pub seen: Growth<E>,
    pub own: Share<E, P>,
    /// The numbers that were joined, each with its share.
    pub joined: LinkedList<(u32, Share<E, P>)>,
}

/// What the table keeps for a pass.
pub struct View<V, S, E, P> {
    pub known: Known<S, E, P>,
    /// The pass was not joined to another.
    pub lives: bool,
    /// The room that the next split gives away.
    pub asked: u32,
    /// What the pass found, while it has the turn.
    pub found: Option<V>,
}
