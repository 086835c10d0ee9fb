//! The kinds of point that the unit delivers: plain records in the caller's memory, with no
//! invariant, so that every value of a record is a point.

#![tactic(auto)]

pub mod band;
pub mod plane;
pub mod space;
