//! Pieces on lent slices: laying a section, reading a point by de Boor's triangle, and how pieces
//! stand to exact splines.

#![tactic(auto)]

pub mod exact;
pub mod reading;
pub mod section;
mod triangle;
