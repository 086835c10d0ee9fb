ghost use Rattle.std.specs.Prelude.{◌≡◌, [], ◌∷◌, refl};
ghost use Rattle.std.specs.Int.{int_min, int_max};
ghost use Rattle.points.specs.Lists.{negated};
ghost use Rattle.points.specs.Stored.{clamped};
ghost use Rattle.kinds.specs.Bands.{rising};
ghost use Rattle.kinds.specs.BandsLemmas.{rises, rising_blend, rising_flip};
ghost use Rattle.points.proofs.Clamping.{clamped_coordinate, coordinate_least, coordinate_greatest};
ghost use Rattle.points.proofs.Shapes.{narrow_by, ranged_none, ranged_more};
ghost use Rattle.points.proofs.Turns.{restores_by};

use grid::coordinate::Coordinate;
use points::point::Point;
use points::stored::{opposite, store, tell};

// A tolerance band: the lowest and the highest number that a measure may have. A record tells
// the lesser of its two numbers first; `==` compares what is stored.
#[derive(Clone, Copy, PartialEq, Eq, Debug)]
pub struct Band {
    pub low: i32,
    pub high: i32,
}

impl Band {
    // Its two as told, the lesser first.
    fn ends(&self) -> (Coordinate, Coordinate)
        ensures lesser { result.0.value ≡ int_min (clamped self.now.low) (clamped self.now.high) }
        ensures greater { result.1.value ≡ int_max (clamped self.now.low) (clamped self.now.high) }
    {
        let low = tell(self.low);
        let high = tell(self.high);
        if low.value <= high.value {
            (low, high)
        } else {
            (high, low)
        }
    }
}

impl Point for Band {
    const WIDTH: usize = 2;

    ghost WIDTH = { 2 };

    ghost told = { λ p. int_min (clamped p.low) (clamped p.high) ∷ (int_max (clamped p.low) (clamped p.high) ∷ []) };

    ghost passes = { rising };

    ghost turns = { negated 1 ∷ (negated 0 ∷ []) };

    ghost narrow = { narrow_by 2 refl };

    ghost points = { λ p.
        let l = clamped p.low in
        let h = clamped p.high in
        let low = coordinate_least l h (clamped_coordinate p.low) (clamped_coordinate p.high) in
        let high = coordinate_greatest l h (clamped_coordinate p.low) (clamped_coordinate p.high) in
        record { long = refl; ranged = ranged_more (int_min l h) (int_max l h ∷ []) low (ranged_more (int_max l h) [] high ranged_none); passed = rises l h } };

    ghost blends = { rising_blend };

    ghost flips = { rising_flip };

    ghost restores = { restores_by (negated 1 ∷ (negated 0 ∷ [])) rising refl };

    fn admits(xs: &[i64]) -> bool {
        xs[0] <= xs[1]
    }

    fn of(xs: &[i64]) -> Band {
        Band {
            low: store(xs, 0),
            high: store(xs, 1),
        }
    }

    fn coordinate(&self, i: usize) -> Coordinate {
        match i {
            0 => self.ends().0,
            1 => self.ends().1,
            _ => Coordinate::ZERO,
        }
    }

    fn flip(self) -> Band {
        Band {
            low: opposite(self.high),
            high: opposite(self.low),
        }
    }
}
