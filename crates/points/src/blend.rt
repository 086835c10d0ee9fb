//! The blend of two points of a kind, coordinate by coordinate: every kind has the same.

ghost use Rattle.std.specs.Prelude.{◌≡◌, take};
ghost use Rattle.grid.specs.Blend.{blended, inexact};
ghost use Rattle.points.specs.Boxes.{coordinate_of};
ghost use Rattle.points.specs.Lists.{blend_point, inexact_point};

use crate::point::Point;
use grid::blend::blend;
use grid::ratio::Ratio;
use grid::rounded::Rounded;

// The most coordinates that a point has.
const MOST_COORDINATES: usize = 4;

// The blend of coordinate i.
fn mean<P: Point>(p: &P, q: &P, at: Ratio, i: usize) -> Rounded<i64>
    ensures value { result.value ≡ blended (coordinate_of i (P.told p.now)) (coordinate_of i (P.told q.now)) at.part at.whole }
    ensures inexact { result.inexact ≡ inexact (coordinate_of i (P.told p.now)) (coordinate_of i (P.told q.now)) at.part at.whole }
{
    let mean = blend(p.coordinate(i), q.coordinate(i), at);
    Rounded {
        value: i64::from(mean.value.value),
        inexact: mean.inexact,
    }
}

// The blends of the coordinates of two points, one by one, in the first places.
fn means<P: Point>(p: &P, q: &P, at: Ratio) -> Rounded<[i64; MOST_COORDINATES]>
    ensures value { take P.WIDTH result.value ≡ blend_point at.part at.whole (P.told p.now) (P.told q.now) }
    ensures inexact { result.inexact ≡ inexact_point at.part at.whole (P.told p.now) (P.told q.now) }
{
    let mut means = [0; MOST_COORDINATES];
    let mut inexact = false;
    for i in (0..P::WIDTH).rev() {
        let mean = mean(p, q, at, i);
        means[i] = mean.value;
        inexact |= mean.inexact;
    }
    Rounded {
        value: means,
        inexact,
    }
}

// The blend of two points, and whether it is inexact in some coordinate.
pub fn blend_points<P: Point>(p: &P, q: &P, at: Ratio) -> Rounded<P>
    ensures value { P.told result.value ≡ blend_point at.part at.whole (P.told p.now) (P.told q.now) }
    ensures inexact { result.inexact ≡ inexact_point at.part at.whole (P.told p.now) (P.told q.now) }
{
    let means = means(p, q, at);
    Rounded {
        value: P::of(&means.value[..P::WIDTH]),
        inexact: means.inexact,
    }
}
