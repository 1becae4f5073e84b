// What the program prints, and how its input falls into book and message. The text is gathered in a Vec: only programs use this crate.
// Where memory runs out a function answers an Err, and no clause says what the Vec then holds: the program ends there.
#![tactic(auto)]

mod input;
mod program;
mod text;

pub use input::{Cut, split};
pub use program::printed;
pub use text::{put_line, put_number, put_refusal, put_rows};
