ghost use Rattle.std.specs.Prelude.{◌≡◌, neg_ℤ};
ghost use Rattle.grid.specs.Blend.{IsCoordinate};

use std::ops::Neg;

// A coordinate of a point, in grid steps.
#[derive(Clone, Copy, PartialEq, Eq, Debug)]
pub struct Coordinate {
    pub value: i32,
    ghost ranged: { IsCoordinate value },
}

impl Coordinate {
    // The least and the greatest value.
    pub const MIN: i32 = -1_073_741_824;

    pub const MAX: i32 = 1_073_741_824;

    pub const ZERO: Coordinate = Coordinate { value: 0 };
}

// A number that is no coordinate.
#[derive(Clone, Copy, PartialEq, Eq, Debug)]
pub struct OutOfRange;

impl TryFrom<i64> for Coordinate {
    type Error = OutOfRange;

    ghost use Rattle.std.specs.Prelude.{true, false, MatchResult};
    ghost use Rattle.grid.specs.Blend.{is_coordinate};

    ghost try_from_gives = { λ z r. MatchResult r
        (λ c. (is_coordinate z ≡ true) × (c.value ≡ z))
        (λ _. is_coordinate z ≡ false) };

    fn try_from(z: i64) -> Result<Coordinate, OutOfRange> {
        match i32::try_from(z) {
            Ok(value @ Coordinate::MIN..=Coordinate::MAX) => Ok(Coordinate { value }),
            _ => Err(OutOfRange),
        }
    }
}

// The opposite of a coordinate is one.
impl Neg for Coordinate {
    type Output = Coordinate;

    ghost neg_gives = { λ p r. r.value ≡ neg_ℤ p.value };

    fn neg(self) -> Coordinate {
        Coordinate { value: -self.value }
    }
}
