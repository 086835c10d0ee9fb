//! The closed list of refusals: what each layer can find wrong, and what a refusal tells of it.

#![tactic(auto)]

pub mod piece;
pub mod point;
pub mod report;
pub mod section;
