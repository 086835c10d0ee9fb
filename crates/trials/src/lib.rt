//! Tests of the layers: worked readings, refusals with their places, limits, and two kinds of
//! point that the unit does not deliver, of the least and of the greatest width.

#![tactic(auto)]

#[cfg(test)]
mod other_kinds;
#[cfg(test)]
mod readings;
#[cfg(test)]
mod refused;
