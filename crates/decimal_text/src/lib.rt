// The text of answers as bytes: decimal numbers, lines of numbers, and the lines that contain words.
#![tactic(auto)]

mod head;
mod line;
mod number;

pub use head::{put_discarded, put_drawn, put_refused, put_title};
pub use line::{put_ended, put_line1, put_line3};
pub use number::put_number;
