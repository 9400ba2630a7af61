//! The files of entries, and the rows of the versions that a depot holds.
//!
//! The content of entry n lies in file n: of a load its delivery, of an install the rows of the
//! version that it made. A file is written whole and synced before the catalogue names it.
#![tactic(auto)]

mod content;
mod fault;
mod files;
mod laws;
mod mem_shelf;
mod shelf;

pub use content::Content;
pub use fault::FileFault;
pub use files::{put_file, read_content, read_version};
pub use laws::files_are_read_again;
pub use mem_shelf::MemShelf;
pub use shelf::Shelf;
