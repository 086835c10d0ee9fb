ghost use Rattle.std.specs.Prelude.{[], ◌∷◌, refl};
ghost use Rattle.points.specs.Lists.{unconditional, kept, negated};
ghost use Rattle.points.specs.Stored.{clamped};
ghost use Rattle.points.proofs.Shapes.{clamped_ranged, narrow_by};
ghost use Rattle.points.proofs.Turns.{restores_by};

use grid::coordinate::Coordinate;
use points::point::Point;
use points::stored::{opposite, store, tell};

// A point in space; its flip is the mirror image across the keel plane. `==` compares what is
// stored.
#[derive(Clone, Copy, PartialEq, Eq, Debug)]
pub struct SpacePoint {
    pub x: i32,
    pub y: i32,
    pub z: i32,
}

impl Point for SpacePoint {
    const WIDTH: usize = 3;

    ghost WIDTH = { 3 };

    ghost told = { λ p. clamped p.x ∷ (clamped p.y ∷ (clamped p.z ∷ [])) };

    ghost passes = { unconditional };

    ghost turns = { negated 0 ∷ (kept 1 ∷ (kept 2 ∷ [])) };

    ghost narrow = { narrow_by 3 refl };

    ghost points = { λ p. record { long = refl; ranged = clamped_ranged (p.x ∷ (p.y ∷ (p.z ∷ []))); passed = refl } };

    ghost blends = { λ a b xs ys r p q. refl };

    ghost flips = { λ xs p. refl };

    ghost restores = { restores_by (negated 0 ∷ (kept 1 ∷ (kept 2 ∷ []))) unconditional refl };

    fn admits(_xs: &[i64]) -> bool {
        true
    }

    fn of(xs: &[i64]) -> SpacePoint {
        SpacePoint {
            x: store(xs, 0),
            y: store(xs, 1),
            z: store(xs, 2),
        }
    }

    fn coordinate(&self, i: usize) -> Coordinate {
        match i {
            0 => tell(self.x),
            1 => tell(self.y),
            2 => tell(self.z),
            _ => Coordinate::ZERO,
        }
    }

    fn flip(self) -> SpacePoint {
        SpacePoint {
            x: opposite(self.x),
            y: self.y,
            z: self.z,
        }
    }
}
