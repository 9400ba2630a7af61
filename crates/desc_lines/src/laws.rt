//! Laws: reading lines and writing them are one language.

ghost use Rattle.desc_lines.specs.Laws.{CutsIntoLines, CutsIntoWords, CutsWhatIsSpaced};
ghost use Rattle.desc_lines.specs.Laws.{HasWrittenLines};
ghost use Rattle.desc_lines.specs.Laws.{SaysWhatIsWritten, WritesWhatIsSaid};

/// A law: the words of a line that is whole say this line.
pub fn written_words_say_the_line()
    ensures law { SaysWhatIsWritten }
{}

/// A law: words that say a line are the words of that line, and it is whole.
pub fn words_are_those_of_what_they_say()
    ensures law { WritesWhatIsSaid }
{}

/// A law: words with single spaces between them are cut into these words again.
pub fn spaced_words_are_cut_again()
    ensures law { CutsWhatIsSpaced }
{}

/// A law: what a line is cut into are words, with one byte at least and no blank.
pub fn lines_are_cut_into_words()
    ensures law { CutsIntoWords }
{}

/// A law: the lines of a text are those that were written to it, and an empty one at its end.
pub fn texts_have_the_written_lines()
    ensures law { HasWrittenLines }
{}

/// A law: no line of a text has an LF.
pub fn texts_are_cut_into_lines()
    ensures law { CutsIntoLines }
{}
