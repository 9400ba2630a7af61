//! The lines of a description: which words say what, and the text that writes them.
//!
//! A line declares a feed or a table, in one of five shapes. Here it is taken apart into words, and
//! a line is written from them. No name is looked up and no number is read: that is left to those
//! who know what was declared before.
#![tactic(auto)]

mod fun;
mod kind;
mod laws;
mod line;
mod names;
mod parts;
mod reading;
mod words;
mod writing;

pub use fun::Fun;
pub use kind::WrittenKind;
pub use laws::{
    lines_are_cut_into_words, spaced_words_are_cut_again, texts_are_cut_into_lines,
    texts_have_the_written_lines, words_are_those_of_what_they_say, written_words_say_the_line,
};
pub use line::{WrittenLine, WrittenTable};
pub use names::is_name;
pub use parts::{WrittenAgg, WrittenColumn, WrittenCond, WrittenPair, WrittenSource};
pub use reading::read_line;
pub use words::{begins_comment, is_go, is_skipped, is_word, words_of};
pub use writing::push_line;
