ghost use Rattle.std.specs.Prelude.{◌≡◌, ◌^◌, ◌<◌, ◌≤◌, map, length, take, drop, Some, None, MatchResult};
ghost use Rattle.refusals.specs.Causes.{point_report};
ghost use Rattle.points.specs.Rows.{row_refusal, placed_after};

use crate::point::Point;
use refusals::point::PointFault;
use std::marker::PhantomData;

// A fault of a list that stands after so many coordinates.
fn placed(fault: PointFault, before: usize) -> PointFault
    requires { (before < 2 ^ 32) × ((point_report fault).place < 2 ^ 32) }
    ensures { result ≡ placed_after before fault }
{
    match fault {
        PointFault::Range(i) => PointFault::Range(before + i),
        other => other,
    }
}

// Lists of which each means a point of the kind P.
#[derive(Drop)]
pub struct CheckedRow<'l, 'x, P: Point> {
    pub lists: &'l [&'x [i64]],
    pub kind: PhantomData<P>,
    ghost checked: { row_refusal P.WIDTH P.passes 0 (map (λ x. x.now) lists.now) ≡ None },
}

impl<'l, 'x, P: Point> CheckedRow<'l, 'x, P> {
    // Checks lists: they are tried in order, and a coordinate out of range is placed by its index
    // through all of them.
    pub fn check(lists: &'l [&'x [i64]]) -> Result<Self, PointFault>
        requires { length lists.now ≤ 64 }
        ensures { MatchResult result
            (λ row. (row_refusal P.WIDTH P.passes 0 (map (λ x. x.now) lists.now) ≡ None) × (row.lists.now ≡ lists.now))
            (λ e. row_refusal P.WIDTH P.passes 0 (map (λ x. x.now) lists.now) ≡ Some e) }
    {
        for (i, xs) in lists.iter().enumerate() {
            if let Err(fault) = P::make(xs) {
                return Err(placed(fault, i * P::WIDTH));
            }
        }
        Ok(CheckedRow {
            lists,
            kind: PhantomData,
        })
    }

    // Fills a row from its start with the points, one after another; the rest of it stays.
    #[tactic(auto, using(crate::proofs::Rowing::lent_point, crate::proofs::Rowing::lent_listed))]
    pub fn fill(&self, row: &mut [P])
        requires { length self.now.lists.now ≤ length row.old }
        ensures made { map P.told (take (length self.now.lists.now) row.new) ≡ map (λ x. x.now) self.now.lists.now }
        ensures rest { drop (length self.now.lists.now) row.new ≡ drop (length self.now.lists.now) row.old }
    {
        for (i, xs) in self.lists.iter().enumerate() {
            row[i] = P::of(xs);
        }
    }
}
