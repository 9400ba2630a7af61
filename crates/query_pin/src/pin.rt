//! A pin: who asked for it, and which versions it keeps.

use crate::input::Input;
use std::marker::Model;

/// Who asked for a pin, and the versions that it keeps. A version that stands twice is kept once.
#[derive(Debug, Drop)]
pub(crate) struct Pin {
    pub(crate) who: u64,
    pub(crate) versions: Vec<Input>,
}

impl Model for Pin {
    ghost use Rattle.query_pin.specs.Pins.{PinOf};

    ghost Value = { PinOf };

    ghost view = { λ pin. record { who = pin.who; versions = pin.versions.items } };
}
