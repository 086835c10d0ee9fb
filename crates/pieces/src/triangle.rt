//! De Boor's triangle over the control points that govern a parameter, in a room as long as they
//! are: the entries of a round replace those of the round before, from the last one down.

ghost use Rattle.std.specs.Prelude.{◌≡◌, ℕ, ◌+◌, ◌-◌, ◌≤◌, [], map, length, slice_index, slice_index_or, slice_set};
ghost use Rattle.grid.specs.Search.{any_where};
ghost use Rattle.pieces.specs.Triangle.{between, inexact_between, de_boor};
ghost use Rattle.pieces.specs.Around.{Around};

use grid::ratio::Ratio;
use points::blend::blend_points;
use points::point::Point;

// The degree + 1 control points that govern u, and the knots from the first one's on.
#[derive(Drop)]
pub(crate) struct Window<'k, 'p, P: Point> {
    pub degree: usize,
    pub knots: &'k [u32],
    pub polygon: &'p [P],
    pub u: u32,
    ghost around: { Around degree knots.now u },
    ghost governed: { length polygon.now ≡ degree + 1 },
}

impl<P: Point> Window<'_, '_, P> {
    // Where between its two entries the blend at place j of round r is taken.
    fn ratio(&self, r: usize, j: usize) -> Ratio
        requires { (1 ≤ r) × (r ≤ j) × (j ≤ self.now.degree) }
        ensures part { result.part ≡ self.now.u - slice_index self.now.knots.now j }
        ensures whole { result.whole ≡ slice_index self.now.knots.now (j + self.now.degree + 1 - r) - slice_index self.now.knots.now j }
    {
        let start = self.knots[j];
        Ratio {
            part: self.u - start,
            whole: self.knots[j + self.degree + 1 - r] - start,
        }
    }

    // Puts entry j of round r in the place of entry j of the round before, and says whether its
    // blend is inexact.
    fn blend_into(&self, room: &mut [P], r: usize, j: usize) -> bool
        requires room { length room.old ≡ self.now.degree + 1 }
        requires round { (1 ≤ r) × (r ≤ j) × (j ≤ self.now.degree) }
        ensures entry { map P.told room.new ≡ slice_set (map P.told room.old) j (between self.now.degree self.now.knots.now self.now.u r j (slice_index_or (map P.told room.old) (j - 1) []) (slice_index_or (map P.told room.old) j [])) }
        ensures inexact { result ≡ inexact_between self.now.degree self.now.knots.now self.now.u r j (slice_index_or (map P.told room.old) (j - 1) []) (slice_index_or (map P.told room.old) j []) }
    {
        let mean = blend_points(&room[j - 1], &room[j], self.ratio(r, j));
        room[j] = mean.value;
        mean.inexact
    }

    // Round r: entries r to degree, and whether one of its blends is inexact.
    fn round(&self, room: &mut [P], r: usize) -> bool
        requires room { length room.old ≡ self.now.degree + 1 }
        requires round { (1 ≤ r) × (r ≤ self.now.degree) }
        ensures entries { (j : ℕ) → r ≤ j → j ≤ self.now.degree → slice_index_or (map P.told room.new) j [] ≡ between self.now.degree self.now.knots.now self.now.u r j (slice_index_or (map P.told room.old) (j - 1) []) (slice_index_or (map P.told room.old) j []) }
        ensures inexact { result ≡ any_where (λ j. inexact_between self.now.degree self.now.knots.now self.now.u r j (slice_index_or (map P.told room.old) (j - 1) []) (slice_index_or (map P.told room.old) j [])) r (self.now.degree + 1 - r) }
    {
        let mut inexact = false;
        for j in (r..=self.degree).rev() {
            inexact |= self.blend_into(room, r, j);
        }
        inexact
    }

    // All rounds: the last entry of the last one, and the number of rounds with an inexact blend.
    fn rounds(&self, room: &mut [P]) -> (P, usize)
        requires { length room.old ≡ self.now.degree + 1 }
        ensures { (P.told result.0, result.1) ≡ de_boor self.now.degree self.now.knots.now (map P.told room.old) self.now.u self.now.degree }
    {
        let mut count = 0;
        for r in 1..=self.degree {
            count += usize::from(self.round(room, r));
        }
        (room[self.degree], count)
    }

    // The triangle in a room of its own, one of five sizes.
    fn in_room<const ROOM: usize>(&self) -> (P, usize)
        requires { ROOM ≡ self.now.degree + 1 }
        ensures { (P.told result.0, result.1) ≡ de_boor self.now.degree self.now.knots.now (map P.told self.now.polygon.now) self.now.u self.now.degree }
    {
        let mut room = [self.polygon[0]; ROOM];
        room.copy_from_slice(self.polygon);
        self.rounds(&mut room)
    }

    // The point at u, and the number of rounds with an inexact blend.
    pub fn triangle(&self) -> (P, usize)
        ensures { (P.told result.0, result.1) ≡ de_boor self.now.degree self.now.knots.now (map P.told self.now.polygon.now) self.now.u self.now.degree }
    {
        match self.degree {
            1 => self.in_room::<2>(),
            2 => self.in_room::<3>(),
            3 => self.in_room::<4>(),
            4 => self.in_room::<5>(),
            _ => self.in_room::<6>(),
        }
    }
}
