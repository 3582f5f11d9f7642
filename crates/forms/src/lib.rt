// Lines of text by their form: bytes, among which the letter H stands for a float's bits and D for
// a decimal number.
#![tactic(auto)]

mod digits; // digits.rt: a digit and its byte
mod piece; // piece.rt: what a byte of a form stands for
mod reading; // reading.rt: what a text has at its front
mod sink; // sink.rt: what bytes are put into
mod writing; // writing.rt: a line put into a sink

pub use piece::Piece;
pub use reading::{Line, read_form};
pub use sink::{Count, Cursor, Sink};
pub use writing::{form_length, put_form, put_hex};
