//! How long the body after a line is.

ghost use Rattle.std.specs.Prelude.{◌≡◌, map};
ghost use Rattle.depot_script.specs.Commands.{size_of_words, sized};

use crate::values::BODY_LIMIT;
use depot_cell::read_number;
use desc_lines::is_word;

/// The body after a line.
#[derive(Clone, Copy, Debug, PartialEq, Eq)]
pub enum BodySize {
    /// No body follows the line.
    NoBody,
    /// A body of so many bytes follows it, at most 16,777,216.
    Body(u64),
    /// A longer body was announced.
    TooBig,
}

/// The body after a line of these words. It is there whatever else is wrong with the line, so that
/// a caller knows where the next one begins.
pub fn body_size(words: &[&[u8]]) -> BodySize
    ensures exact { result ≡ size_of_words (map (λ word. word.now) words.now) }
{
    match words {
        [first, _, _, _, size] => {
            if is_word(first, b"deliver") {
                sized(read_number(size))
            } else {
                BodySize::NoBody
            }
        }
        _ => BodySize::NoBody,
    }
}

fn sized(bytes: Option<u64>) -> BodySize
    ensures exact { result ≡ sized bytes }
{
    match bytes {
        None => BodySize::NoBody,
        Some(bytes) if bytes > BODY_LIMIT => BodySize::TooBig,
        Some(bytes) => BodySize::Body(bytes),
    }
}
