ghost use Rattle.std.specs.Prelude.{◌≡◌, ℕ, ◌≤◌, Bool, true, List, length, ℤ, pos, Some, None, MatchResult, not, position, slice_index_or};
ghost use Rattle.grid.specs.Blend.{IsCoordinate, IsRatio, is_coordinate};
ghost use Rattle.points.specs.Lists.{IsPoint, Turn, point_refusal, misshapen, coordinates, blend_point, flipped};

use grid::coordinate::Coordinate;
use refusals::point::PointFault;

// A kind of point. A point means a list of coordinates: `told` says which list a record means,
// and every value of the record means one.
pub trait Point: Copy {
    // the number of coordinates
    const WIDTH: usize;

    // the same, in clauses
    ghost WIDTH: { ℕ };

    ghost told: { Self → List ℤ };

    // the condition that the kind sets
    ghost passes: { List ℤ → Bool };

    // the kind's flip, coordinate by coordinate
    ghost turns: { List Turn };

    // Whether a list of the kind's width passes the condition of the kind.
    fn admits(xs: &[i64]) -> bool
        requires { length xs.now ≡ WIDTH }
        ensures { result ≡ passes xs.now };

    // The point that a list means; the list is what its coordinates make, one by one.
    fn of(xs: &[i64]) -> Self
        requires point { IsPoint WIDTH passes xs.now }
        requires listed { coordinates WIDTH xs.now ≡ xs.now }
        ensures { told result ≡ xs.now };

    // The point that a list means, or why it means none.
    fn make(xs: &[i64]) -> Result<Self, PointFault>
        ensures { MatchResult result (λ p. (point_refusal WIDTH passes xs.now ≡ None) × (told p ≡ xs.now)) (λ e. point_refusal WIDTH passes xs.now ≡ Some e) }
    {
        shape(xs, Self::WIDTH)?;
        if Self::admits(xs) {
            Ok(Self::of(xs))
        } else {
            Err(PointFault::Test)
        }
    }

    // Coordinate i, and 0 past the last.
    fn coordinate(&self, i: usize) -> Coordinate
        ensures { result.value ≡ slice_index_or (told self.now) i (pos 0) };

    // The flipped point.
    fn flip(self) -> Self
        ensures { told result ≡ flipped turns (told self) };

    // a width is 1 to 4
    ghost narrow: { (1 ≤ WIDTH) × (WIDTH ≤ 4) };

    // every value of the record means a point
    ghost points: { (p : Self) → IsPoint WIDTH passes (told p) };

    // a blend of two points passes the condition
    ghost blends: { (a b : ℕ) (xs ys : List ℤ) → IsRatio a b → IsPoint WIDTH passes xs → IsPoint WIDTH passes ys → passes (blend_point a b xs ys) ≡ true };

    // and so does a flipped point
    ghost flips: { (xs : List ℤ) → IsPoint WIDTH passes xs → passes (flipped turns xs) ≡ true };

    // a flip done twice restores the point
    ghost restores: { (xs : List ℤ) → IsPoint WIDTH passes xs → flipped turns (flipped turns xs) ≡ xs };
}

// The first coordinate out of range, by its index.
fn first_outside(xs: &[i64]) -> Option<usize>
    ensures { result ≡ position (λ x. not (is_coordinate x)) xs.now }
{
    xs.iter().position(|x| Coordinate::try_from(*x).is_err())
}

// Whether a list has the shape of a point: its length first, then the first coordinate out of range.
fn shape(xs: &[i64], width: usize) -> Result<(), PointFault>
    ensures { MatchResult result
        (λ _. (misshapen width xs.now None ≡ None) × (length xs.now ≡ width) × ((k : ℕ) → IsCoordinate (slice_index_or xs.now k (pos 0))) × (coordinates width xs.now ≡ xs.now))
        (λ e. misshapen width xs.now None ≡ Some e) }
{
    if xs.len() != width {
        return Err(PointFault::Count);
    }
    match first_outside(xs) {
        Some(i) => Err(PointFault::Range(i)),
        None => Ok(()),
    }
}
