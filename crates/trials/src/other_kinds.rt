ghost use Rattle.std.specs.Prelude.{[], ◌∷◌, refl};
ghost use Rattle.points.specs.Lists.{unconditional, kept, negated};
ghost use Rattle.points.specs.Stored.{clamped};
ghost use Rattle.points.proofs.Shapes.{clamped_ranged, narrow_by};
ghost use Rattle.points.proofs.Turns.{restores_by};

use grid::coordinate::Coordinate;
use points::point::Point;
use points::stored::{opposite, store, tell};

// A height over the waterline: one coordinate.
#[derive(Clone, Copy, PartialEq, Eq, Debug)]
pub struct Height {
    pub z: i32,
}

impl Point for Height {
    const WIDTH: usize = 1;

    ghost WIDTH = { 1 };

    ghost told = { λ p. clamped p.z ∷ [] };

    ghost passes = { unconditional };

    ghost turns = { negated 0 ∷ [] };

    ghost narrow = { narrow_by 1 refl };

    ghost points = { λ p. record { long = refl; ranged = clamped_ranged (p.z ∷ []); passed = refl } };

    ghost blends = { λ a b xs ys r p q. refl };

    ghost flips = { λ xs p. refl };

    ghost restores = { restores_by (negated 0 ∷ []) unconditional refl };

    fn admits(_xs: &[i64]) -> bool {
        true
    }

    fn of(xs: &[i64]) -> Height {
        Height { z: store(xs, 0) }
    }

    fn coordinate(&self, i: usize) -> Coordinate {
        match i {
            0 => tell(self.z),
            _ => Coordinate::ZERO,
        }
    }

    fn flip(self) -> Height {
        Height {
            z: opposite(self.z),
        }
    }
}

// A corner of a plate with its offsets to port and to starboard, which its mirror image swaps:
// four coordinates.
#[derive(Clone, Copy, PartialEq, Eq, Debug)]
pub struct Corner {
    pub x: i32,
    pub y: i32,
    pub port: i32,
    pub starboard: i32,
}

impl Point for Corner {
    const WIDTH: usize = 4;

    ghost WIDTH = { 4 };

    ghost told = { λ p. clamped p.x ∷ (clamped p.y ∷ (clamped p.port ∷ (clamped p.starboard ∷ []))) };

    ghost passes = { unconditional };

    ghost turns = { negated 0 ∷ (kept 1 ∷ (kept 3 ∷ (kept 2 ∷ []))) };

    ghost narrow = { narrow_by 4 refl };

    ghost points = { λ p. record { long = refl; ranged = clamped_ranged (p.x ∷ (p.y ∷ (p.port ∷ (p.starboard ∷ [])))); passed = refl } };

    ghost blends = { λ a b xs ys r p q. refl };

    ghost flips = { λ xs p. refl };

    ghost restores = { restores_by (negated 0 ∷ (kept 1 ∷ (kept 3 ∷ (kept 2 ∷ [])))) unconditional refl };

    fn admits(_xs: &[i64]) -> bool {
        true
    }

    fn of(xs: &[i64]) -> Corner {
        Corner {
            x: store(xs, 0),
            y: store(xs, 1),
            port: store(xs, 2),
            starboard: store(xs, 3),
        }
    }

    fn coordinate(&self, i: usize) -> Coordinate {
        match i {
            0 => tell(self.x),
            1 => tell(self.y),
            2 => tell(self.port),
            3 => tell(self.starboard),
            _ => Coordinate::ZERO,
        }
    }

    fn flip(self) -> Corner {
        Corner {
            x: opposite(self.x),
            y: self.y,
            port: self.starboard,
            starboard: self.port,
        }
    }
}
