// Reading a list of stored cases: words, numbers of 16 lowercase hexadecimal digits, and decimal numbers.
// Writing the answers, or their digests.
#![tactic(auto)]

mod digest; // digest.rt: the digest of a text
mod digits; // digits.rt: what a byte counts as a digit
mod fields; // fields.rt: a line's numbers, read and written
mod lines; // lines.rt: the lines of a text
mod numbers; // numbers.rt: hexadecimal and decimal numbers
mod tally; // tally.rt: counts of cases, and their report
mod words; // words.rt: the word that begins a line

pub use digest::{digest_start, digest_with};
pub use digits::hex_digit;
pub use fields::{
    MOST_NUMBERS, OFF, digest_numbers, read_numbers, read_numbers_into, write_numbers,
};
pub use lines::{Lines, line_end};
pub use numbers::{decimal_number, hex16, three_numbers};
pub use tally::{SHOWN, Tally, total};
pub use words::word_end;
