//! The rule of the table behind a turn, and what each kind of step on it tells.

ghost use Rattle.turn_lock.specs.Rule.{IsKept};
ghost use Rattle.turn_lock.specs.Steps.{Asks, Frees, Tries};
ghost use Rattle.turn_lock.specs.Steps.{first_view, joined_view, left_view, right_view, spent_view};

use crate::grows::Grows;
use crate::known::View;
use atomic_table::{Join, Play, Seat, Split, TableRule};
use std::marker::PhantomData;
use std::snapshot::Snapshot;

pub(crate) type ViewOf<V> = View<V, <V as Grows>::Start, <V as Grows>::Entry, <V as Grows>::Part>;

pub(crate) type Place<V> = Seat<Option<V>, ViewOf<V>>;

/// The rule of the table behind a turn.
pub struct Law<V> {
    of: PhantomData<V>,
}

impl<V: Grows> TableRule<Option<V>, ViewOf<V>, Snapshot<V>> for Law<V> {
    ghost holds = { λ _. IsKept V.meaning };

    ghost first = { λ key. first_view V.meaning key.value };
}

pub(crate) struct Try<V> {
    of: PhantomData<V>,
}

impl<V: Grows> Play<Option<V>, ViewOf<V>> for Try<V> {
    ghost then = { Tries V.meaning };
}

pub(crate) struct Free<V> {
    of: PhantomData<V>,
}

impl<V: Grows> Play<Option<V>, ViewOf<V>> for Free<V> {
    ghost then = { Frees V.meaning };
}

pub(crate) struct Ask<V> {
    of: PhantomData<V>,
}

impl<V: Grows> Play<Option<V>, ViewOf<V>> for Ask<V> {
    ghost then = { Asks };
}

pub(crate) struct Cut<V> {
    of: PhantomData<V>,
}

impl<V: Grows> Split<ViewOf<V>> for Cut<V> {
    ghost left = { left_view };

    ghost right = { right_view V.meaning.unused };
}

pub(crate) struct Unite<V> {
    of: PhantomData<V>,
}

impl<V: Grows> Join<ViewOf<V>> for Unite<V> {
    ghost both = { joined_view };

    ghost spent = { spent_view V.meaning.unused };
}
