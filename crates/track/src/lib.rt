// Tracks: what was asked of the box, record by record, as bytes.
//
// The layers, each knowing only those below it: records (a kind and its fields), tracks (records
// after one another, with their stamps) and packing (records and tracks back to bytes). `theorems`
// says what holds of packing and reading together.
#![tactic(auto)]

mod entries;
pub mod packing;
pub mod records;
pub mod theorems;
pub mod tracks;
