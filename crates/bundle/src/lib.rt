// Bundles: the record of a job as bytes, a header and its tracks, read and checked whole.
#![tactic(auto)]

pub mod bundles;
pub mod theorems;
mod tracks;
