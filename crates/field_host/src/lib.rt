// The engine as a station's programmer meets it: functions on numbers, arrays and lent slices. The
// crate `field_host_c` exports each to C, and the header include/jisampode.h describes them.
#![tactic(auto)]

mod answers; // answers.rt: the number of an answer
mod calls; // calls.rt: open, step and drop
mod corners; // corners.rt: a node's needed corners
mod dense; // dense.rt: the dense field's calls
mod given; // given.rt: a box, a model and a job's input, from numbers
mod needed; // needed.rt: how long the slices of a job have to be
mod reading; // reading.rt: a record's counts and cursor
mod record; // record.rt: a record in four arrays
mod texts; // texts.rt: the listing of a job's text
mod version; // version.rt: which version this is
mod walks; // walks.rt: walks over points, cells and octets

pub use calls::{jisampode_drop, jisampode_open, jisampode_step};
pub use corners::jisampode_corner_list;
pub use dense::{
    jisampode_padding, jisampode_point_count, jisampode_sample, jisampode_smooth,
    jisampode_threshold,
};
pub use given::{box_of, model_given};
pub use needed::jisampode_lengths;
pub use reading::{jisampode_counts, jisampode_cursor};
pub use texts::jisampode_list_job;
pub use version::jisampode_version;
pub use walks::{
    jisampode_cell_step, jisampode_octet_step, jisampode_point_step, put_box, put_point,
};
