//! The whole-number grid: coordinates, and the blend of two of them.

#![tactic(auto)]

pub mod blend;
pub mod coordinate;
pub mod ratio;
pub mod rounded;
