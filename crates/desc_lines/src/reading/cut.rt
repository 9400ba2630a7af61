//! Words that a sign cuts in two.

ghost use Rattle.std.specs.Prelude.{◌≡◌, ◌<◌, ◌==◌, length, option_map, position, IfSome};
ghost use Rattle.desc_lines.specs.Cuts.{cut_word};

/// What stands before and after the first such sign of a word, if it has one.
pub fn cut_word<'a>(word: &'a [u8], sign: u8) -> Option<(&'a [u8], &'a [u8])>
    ensures exact { option_map (λ parts. (parts.0.now, parts.1.now)) result
        ≡ cut_word sign word.now }
{
    match place_of(word, sign) {
        Some(place) => Some((&word[..place], &word[place + 1..])),
        None => None,
    }
}

fn place_of(word: &[u8], sign: u8) -> Option<usize>
    ensures exact { result ≡ position (λ byte. byte == sign) word.now }
    ensures within { IfSome result (λ place. place < length word.now) }
{
    word.iter().position(|byte| *byte == sign)
}
