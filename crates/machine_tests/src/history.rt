//! Histories, as words: `r0+s1` is a load that keeps rows in two raw partitions, `a0@2` an install
//! of a view's partition that counts the first two entries.

use crate::served::LETTERS;
use desc_types::Key;
use std::alloc::Global;
use std::test::Fail;

/// An entry of a history.
#[derive(Debug, Drop)]
pub enum Step {
    /// A load, with the raw partitions that it touches.
    Load(Vec<Key>),
    /// An install, with how many entries it counts.
    Install { key: Key, at: u64 },
}

/// The entry that a word says.
pub fn read_step(alloc: Global, word: &[u8]) -> Result<Step, Fail> {
    match word {
        [table, part, b'@', place] => Ok(Step::Install {
            key: read_key(*table, *part)?,
            at: read_digit(*place)?,
        }),
        names => Ok(Step::Load(read_keys(alloc, names)?)),
    }
}

/// The partitions that are named with `+` between them.
fn read_keys(alloc: Global, names: &[u8]) -> Result<Vec<Key>, Fail> {
    let mut keys = Vec::new(alloc);
    for name in names.split(|byte| *byte == b'+') {
        match name {
            [table, part] => keys.push(read_key(*table, *part)?)?,
            _ => return Err(Fail::new("a name of a partition")),
        }
    }
    Ok(keys)
}

/// The partition that the letter of a table and a digit name.
pub fn read_key(table: u8, part: u8) -> Result<Key, Fail> {
    match LETTERS.iter().position(|letter| *letter == table) {
        Some(number) => Ok(Key {
            table: number as u16,
            part: read_digit(part)?,
        }),
        None => Err(Fail::new("a letter of a table")),
    }
}

/// The number that a digit is.
fn read_digit(digit: u8) -> Result<u64, Fail> {
    match digit {
        b'0'..=b'9' => Ok(u64::from(digit - b'0')),
        _ => Err(Fail::new("a digit")),
    }
}
