//! What the words ask for.

/// What is done.
#[derive(Clone, Copy, Debug)]
pub enum Task {
    /// Rows are written as bytes and read back, so many times.
    Rows { rounds: u32 },
    /// The same, and each time what was read is dropped.
    DroppedRows { rounds: u32 },
    /// A catalogue of so many records is opened so many times.
    Open { records: u32, openings: u32 },
}

/// What the words ask for: `rows ROUNDS`, `dropped-rows ROUNDS`, or `open RECORDS OPENINGS`.
pub fn read_task(words: &[String]) -> Option<Task> {
    match words {
        [verb, rounds] => read_rows(verb.as_str(), rounds.as_str()),
        [verb, records, openings] if verb.as_str() == "open" => {
            read_open(records.as_str(), openings.as_str())
        }
        _ => None,
    }
}

fn read_rows(verb: &str, rounds: &str) -> Option<Task> {
    match (verb, rounds.parse::<u32>()) {
        ("rows", Ok(rounds)) => Some(Task::Rows { rounds }),
        ("dropped-rows", Ok(rounds)) => Some(Task::DroppedRows { rounds }),
        _ => None,
    }
}

fn read_open(records: &str, openings: &str) -> Option<Task> {
    match (records.parse::<u32>(), openings.parse::<u32>()) {
        (Ok(records), Ok(openings)) => Some(Task::Open { records, openings }),
        _ => None,
    }
}
