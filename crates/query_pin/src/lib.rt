//! Requests: what a query may ask for. Pins: which versions stay while they are read. Held
//! versions: which there are, and which of them were replaced.
#![tactic(auto)]

mod dead;
mod input;
mod kept;
mod listing;
mod newest;
mod pin;
mod pinned;
mod pins;
mod readers;
mod replaced;
mod request;

pub use dead::Dead;
pub use input::Input;
pub use kept::KeptList;
pub use pinned::Pinned;
pub use pins::PinBook;
pub use request::{Request, RequestFault, check_request};
