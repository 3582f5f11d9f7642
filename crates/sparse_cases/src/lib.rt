// What a list of calls on a sparse field's job holds: the record as numbers, the parts of the next input,
// the five slices, and where its answers go.
#![tactic(auto)]

mod elements; // elements.rt: elements of slices, made from numbers and given as such
mod lent; // lent.rt: the five slices
mod output; // output.rt: the answers of a list, as a digest or whole
mod records; // records.rt: records and inputs, from and to numbers
mod words; // words.rt: the words of the lines

pub use lent::Slices;
pub use output::Output;
pub use records::{
    RECORD_NUMBERS, call_answer, input_of, job_of, put_record, record_numbers, settle_record,
};
pub use words::Word;
