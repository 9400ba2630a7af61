//! The lines of a session: what each asks for, and the texts of the replies.
//!
//! A caller cuts a line into words with `desc_lines::words_of`, once for both calls on it:
//! [`body_size`] tells how long the body after the line is, and [`read_command`] what the line asks
//! for, or its first fault. The forms of lines and replies stand in `docs/FORMATS.md`.
#![tactic(auto)]

mod body;
mod command;
mod commands;
mod fault;
mod faults;
mod line;
mod listings;
mod names;
mod reading;
mod rows;
mod texts;
mod values;
mod written;

pub use body::{BodySize, body_size};
pub use command::Command;
pub use commands::read_command;
pub use fault::CommandFault;
pub use listings::{asides_text, marks_text};
pub use names::{feed_name, table_name};
pub use rows::rows_text;
pub use texts::{
    answer_text, drained_text, loaded_text, part_text, reclaimed_text, refused_text, repeat_text,
};
