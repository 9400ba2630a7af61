//! The faults of a line.

ghost use Rattle.std.specs.Prelude.{◌≡◌};
ghost use Rattle.depot_script.specs.Faults.{fault_text};

/// Why a line is refused. A line with several faults is refused for the first of them.
#[derive(Clone, Copy, Debug, PartialEq, Eq, Drop)]
pub enum CommandFault {
    /// The first word is no command, or the level of an item is neither `closed` nor `complete`.
    BadWord,
    /// There are more words than the command has, or fewer.
    BadCount,
    /// What has to be a number is none, or is out of its range.
    BadNumber,
    /// The feed was not declared.
    NoFeed,
    /// The table of an item was not declared.
    NoTable,
}

impl CommandFault {
    /// The word that names the fault.
    pub fn text(&self) -> &'static str
        ensures exact { result.now ≡ fault_text self.now }
    {
        match self {
            CommandFault::BadWord => "bad_word",
            CommandFault::BadCount => "bad_count",
            CommandFault::BadNumber => "bad_number",
            CommandFault::NoFeed => "no_feed",
            CommandFault::NoTable => "no_table",
        }
    }
}
