// The text of a job, read into an input with the bits of its constants.
#![tactic(auto)]

use input::Input;
use std::error::Error;
use std::fmt;

mod nan; // nan.rt: the bits of a NaN leaf value
mod parts; // parts.rt: a part line
mod reader; // reader.rt: a job's text, line by line

pub use nan::nan_pattern;
pub use reader::read_job;

// The most that a decimal number of a text may be.
pub const LIMIT: u64 = 4294967295;

// The input that a text spells, and the bits of each constant as they are written.
// Kept: no derived equality, as a model has none.
#[derive(Clone, Copy, Debug)]
pub struct Job {
    pub input: Input,
    pub patterns: [u64; 64],
}

// A text that is off its form, and the first line that is.
#[derive(Clone, Copy, Debug, PartialEq, Eq)]
pub struct OffForm {
    pub line: u32,
}

impl fmt::Display for OffForm {
    fn fmt<W: fmt::Write>(&self, f: &mut fmt::Formatter<W>) -> fmt::Result {
        write!(f, "line {} is off its form", self.line)
    }
}

impl Error for OffForm {}
