// The listing of a finished job, written over lent bytes; and what `fieldlist` prints for a job's text.
#![tactic(auto)]

mod list; // list.rt: what `fieldlist` prints
mod sheet; // sheet.rt: a job's listing, line by line
mod text; // text.rt: a text put into lent bytes, if it fits
mod unlisted; // unlisted.rt: why there is no listing
mod writing; // writing.rt: a job's whole listing

pub use list::{list_job, list_whole};
pub use unlisted::Unlisted;
pub use writing::{write_listing, write_off, write_refusal};
