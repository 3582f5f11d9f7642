// The C interface: each function of the crate `field_host`, exported under its name. The header
// include/jisampode.h describes them.
#![tactic(auto)]

mod calls; // calls.rt: open, step and drop
mod corners; // corners.rt: a node's needed corners
mod dense; // dense.rt: the dense field's calls
mod needed; // needed.rt: how long the slices of a job have to be
mod reading; // reading.rt: a record's counts and cursor
mod texts; // texts.rt: the listing of a job's text
mod version; // version.rt: which version this is
mod walks; // walks.rt: walks over points, cells and octets
