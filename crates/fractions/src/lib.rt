//! Fractions, in which the exact spline is defined. They are spoken of in contracts alone.

#![tactic(auto)]

ghost use Rattle.fractions.specs.Laws.{IsOrderedField};

// A theorem: fractions are an ordered field.
pub fn fractions_are_an_ordered_field()
    ensures { IsOrderedField }
{}
