//! What the words ask for: how many rounds, and which raw partition each of them loads.

/// Raw partitions that rounds go through again and again, so that the history grows and what is
/// kept of partitions does not.
const FEW: u32 = 300;

/// Which raw partitions the rounds load.
#[derive(Clone, Copy, Debug)]
pub enum Loaded {
    /// The same few in turn.
    Few,
    /// A new one each.
    New,
}

impl Loaded {
    /// The raw partition that a round loads, by number.
    pub fn part(self, round: u32) -> u64 {
        match self {
            Loaded::Few => u64::from(round % FEW),
            Loaded::New => u64::from(round),
        }
    }
}

/// How many rounds, and what they load.
#[derive(Clone, Copy, Debug)]
pub struct Course {
    pub rounds: u32,
    pub loaded: Loaded,
}

/// What the words ask for, if they ask for a run: a number of rounds, and perhaps `new`.
pub fn read_course(words: &[String]) -> Option<Course> {
    let (rounds, loaded) = match words {
        [rounds] => (rounds, Loaded::Few),
        [rounds, loaded] if loaded.as_str() == "new" => (rounds, Loaded::New),
        _ => return None,
    };
    match rounds.as_str().parse::<u32>() {
        Ok(rounds) => Some(Course { rounds, loaded }),
        Err(_) => None,
    }
}
