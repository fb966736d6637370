// Words and numbers of a text: compared and read, and written at a place of a room.
//
// No public function asks anything of its caller: a place outside the text holds nothing, and a word or a number that does not
// fit a room is not written.
#![tactic(auto)]

mod decimal;
mod number;
mod text;
mod word;

pub use decimal::{put_number, put_numeral, width};
pub use number::number_after;
pub use text::{print, print_piece};
pub use word::{begins, put};
