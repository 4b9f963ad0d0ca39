//! What the programs of cases share. Such a program, `NAME_cases`, reads lines of standard input and prints what the crate
//! NAME answers to each; `rt ci` compares what it prints with answers that were written by hand.
#![tactic(auto)]

mod bytes;
mod lines;
mod rows;
mod shapes;
mod words;

pub use bytes::{bytes_of, put_bytes};
pub use lines::{Answers, answer_lines};
pub use rows::{put_row, put_value, row_of, truth_word, value_of};
pub use shapes::{ask_of, columns_of, definition_of, served_of, tables_of, texts_of};
pub use words::{cut, number_of};
