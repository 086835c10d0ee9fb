//! Kinds of point: the trait, the blend of points, how records store numbers, and rows of points.

#![tactic(auto)]

pub mod blend;
pub mod point;
pub mod row;
pub mod rule;
pub mod stored;
