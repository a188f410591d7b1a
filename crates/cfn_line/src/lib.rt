//! Texts of words and lines: what the program writes into a file and says on the screen.
//!
//! A text goes through a `Channel`, by calls of a desk, and what they leave is one relation, `Appends`, in
//! specs/Appending.antt: on Ok the whole text was sent, and an `Err` is one call that failed, behind a front of the text.
//!
//! - `channel` sends bytes in one call, and `digits` has the digits of small numbers.
//! - `word` has the words that lines are made of, and `waiting` the bytes that wait for the screen, a `Line`. A caller
//!   whose lines are no lists of fixed words and numbers adds their words, or bytes, to a `Line` of its own.
//! - `lines` writes a line of words: into the file each word by one call, together with the space or LF behind it, but
//!   a fixed word longer than 31 bytes by two; on the screen the line by one call, where it has at most 4,096 bytes.
//!
//! No call takes memory. A text's definition, and `line` and `text`, stand in cfn_model's specs/Text.antt.
#![tactic(auto)]

mod channel;
mod digits;
mod lines;
mod waiting;
mod word;

pub use channel::{Channel, send};
pub use digits::two_digits;
pub use lines::{write_line, write_list, write_list_behind};
pub use waiting::Line;
pub use word::{Word, add_word};
