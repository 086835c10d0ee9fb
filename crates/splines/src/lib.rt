//! The exact spline and what is true of it, for any control points: each function here carries a theorem and does nothing.

#![tactic(auto)]

ghost use Rattle.splines.specs.Theorems.{OnlyItsOwnKnotsAndPointsCount, SplineIsLinearInItsPoints, DomainIsMadeOfSpans};
ghost use Rattle.splines.specs.Theorems.{TriangleGivesTheSpline, FullKnotGivesItsPoint};
ghost use Rattle.splines.specs.Theorems.{InsertionKeepsTheCurve, SplittingKeepsTheCurve, RaisingKeepsTheCurve};
ghost use Rattle.splines.specs.Theorems.{BasisIsNotNegative, BasisSumsToOne};
ghost use Rattle.splines.specs.Theorems.{SplineLiesBetweenItsPoints, SplineLiesBetweenGoverningPoints, ClosePointsHaveCloseSplines};

// Knots and control points past those of the spline change nothing.
pub fn only_its_own_knots_and_points_count()
    ensures { OnlyItsOwnKnotsAndPointsCount }
{}

// The value of a combination of control polygons is that combination of their values.
pub fn spline_is_linear_in_its_points()
    ensures { SplineIsLinearInItsPoints }
{}

// Every parameter of the domain lies in a span.
pub fn domain_is_made_of_spans()
    ensures { DomainIsMadeOfSpans }
{}

// De Boor: in each span of the domain the sum of basis functions times control points is the last
// entry of the triangle.
pub fn triangle_gives_the_spline()
    ensures { TriangleGivesTheSpline }
{}

// At a knot that stands as often as the degree the spline is a control point.
pub fn full_knot_gives_its_point()
    ensures { FullKnotGivesItsPoint }
{}

// Boehm: a knot inserted leaves the same spline on the whole domain.
pub fn insertion_keeps_the_curve()
    ensures { InsertionKeepsTheCurve }
{}

// Each half of a split has the same spline on its own part of the domain.
pub fn splitting_keeps_the_curve()
    ensures { SplittingKeepsTheCurve }
{}

// A spline without inner knots, raised by one degree, is the same spline.
pub fn raising_keeps_the_curve()
    ensures { RaisingKeepsTheCurve }
{}

// No basis function is negative anywhere.
pub fn basis_is_not_negative()
    ensures { BasisIsNotNegative }
{}

// The basis functions sum to 1 on the domain.
pub fn basis_sums_to_one()
    ensures { BasisSumsToOne }
{}

// On the domain the spline lies between any bounds of its control points.
pub fn spline_lies_between_its_points()
    ensures { SplineLiesBetweenItsPoints }
{}

// In a span it lies between any bounds of the control points that govern the span.
pub fn spline_lies_between_governing_points()
    ensures { SplineLiesBetweenGoverningPoints }
{}

// Control points at most e apart have splines at most e apart.
pub fn close_points_have_close_splines()
    ensures { ClosePointsHaveCloseSplines }
{}
