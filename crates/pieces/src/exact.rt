//! How pieces stand to exact splines: each function here carries a theorem and does nothing.

ghost use Rattle.pieces.specs.Curves.{LawfulPiecesAreSplines};
ghost use Rattle.pieces.specs.Examples.{WorkedExamplesStand};

// In each coordinate a lawful piece is a spline that the theorems on splines speak of, and it has
// the same domain.
pub fn lawful_pieces_are_splines()
    ensures { LawfulPiecesAreSplines }
{}

// The worked examples are what the definitions give, on the grid and exactly.
pub fn worked_examples_stand()
    ensures { WorkedExamplesStand }
{}
