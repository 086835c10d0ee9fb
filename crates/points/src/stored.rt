//! Numbers as a record stores them: each is told as a coordinate, whatever it is.

ghost use Rattle.std.specs.Prelude.{◌≡◌, ℕ, ◌<◌, length, pos, neg_ℤ, slice_index_or};
ghost use Rattle.grid.specs.Blend.{IsCoordinate};
ghost use Rattle.points.specs.Stored.{clamped};

use grid::coordinate::Coordinate;

// A stored number as it is told: the number, or the nearest limit where it is out of range.
#[tactic(auto, unfolding(crate::specs::Stored::clamped))]
pub fn tell(stored: i32) -> Coordinate
    ensures { result.value ≡ clamped stored }
{
    Coordinate {
        value: stored.clamp(Coordinate::MIN, Coordinate::MAX),
    }
}

// A coordinate to be stored, which is told as it is.
#[tactic(auto, using(crate::proofs::Clamping::clamped_is))]
pub fn held(coordinate: Coordinate) -> i32
    ensures { clamped result ≡ coordinate.value }
{
    coordinate.value
}

// A stored number that tells the negative.
pub fn opposite(stored: i32) -> i32
    ensures { clamped result ≡ neg_ℤ (clamped stored) }
{
    held(-tell(stored))
}

// Coordinate i of a list, to be stored.
pub fn store(xs: &[i64], i: usize) -> i32
    requires within { i < length xs.now }
    requires coordinate { (k : ℕ) → IsCoordinate (slice_index_or xs.now k (pos 0)) }
    ensures { clamped result ≡ slice_index_or xs.now i (pos 0) }
{
    held(Coordinate {
        value: xs[i] as i32,
    })
}
