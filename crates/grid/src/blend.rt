ghost use Rattle.std.specs.Prelude.{◌≡◌, ◌*◌, ◌^◌, ◌≤◌, pos, ◌*ℤ◌, unsigned_abs};
ghost use Rattle.grid.specs.Blend.{IsCoordinate, nearest, fractional, blended, inexact, BlendLaw};

use crate::coordinate::Coordinate;
use crate::ratio::Ratio;
use crate::rounded::Rounded;

// k times a coordinate.
fn scaled(k: u32, p: Coordinate) -> i64
    requires { k ≤ 2 ^ 20 }
    ensures value { result ≡ pos k *ℤ p.value }
    ensures bound { unsigned_abs result ≤ k * 2 ^ 30 }
{
    i64::from(k) * i64::from(p.value)
}

// The whole number nearest to z / b, inexact where z / b is not whole.
fn quotient(z: i64, b: u32) -> Rounded<i64>
    requires size { unsigned_abs z ≤ 2 ^ 60 }
    requires some { 1 ≤ b }
    ensures value { result.value ≡ nearest z b }
    ensures inexact { result.inexact ≡ fractional z b }
{
    let b = i64::from(b);
    let floor = z.div_euclid(b);
    let rest = z.rem_euclid(b);
    Rounded {
        value: floor + i64::from(rest * 2 >= b),
        inexact: rest != 0,
    }
}

// The rounded mean of two coordinates, with the laws that it keeps.
fn mean(p: Coordinate, q: Coordinate, at: Ratio) -> Rounded<i64>
    ensures value { result.value ≡ blended p.value q.value at.part at.whole }
    ensures inexact { result.inexact ≡ inexact p.value q.value at.part at.whole }
    ensures law { BlendLaw p.value q.value at.part at.whole result.value result.inexact }
    ensures coordinate { IsCoordinate result.value }
{
    quotient(scaled(at.whole - at.part, p) + scaled(at.part, q), at.whole)
}

// The blend of the coordinates p and q, and whether it is inexact.
pub fn blend(p: Coordinate, q: Coordinate, at: Ratio) -> Rounded<Coordinate>
    ensures value { result.value.value ≡ blended p.value q.value at.part at.whole }
    ensures inexact { result.inexact ≡ inexact p.value q.value at.part at.whole }
    ensures law { BlendLaw p.value q.value at.part at.whole result.value.value result.inexact }
{
    let mean = mean(p, q, at);
    Rounded {
        value: Coordinate {
            value: mean.value as i32,
        },
        inexact: mean.inexact,
    }
}
