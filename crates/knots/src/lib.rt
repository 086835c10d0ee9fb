//! Lawful knot lists: what makes one, the causes that refuse the others, and the span of a parameter.

#![tactic(auto)]

mod degree;
pub mod judge;
pub mod list;
pub mod rule;
pub mod span;
