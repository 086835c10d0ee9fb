ghost use Rattle.std.specs.Prelude.{◌≡◌, ◌<◌, ◌≤◌, true, false, MatchResult, unsigned_abs};
ghost use Rattle.knots.specs.Lawful.{first_knot, last_knot};
ghost use Rattle.knots.specs.Spans.{in_domain, span_of, Span};
ghost use Rattle.refusals.specs.declared.piece.PieceFault.TheVariants.{OffDomain};

use crate::list::Knots;
use refusals::piece::PieceFault;
use std::ops::Range;

impl Knots<'_> {
    // The domain runs from the first knot, included, to the last, excluded.
    pub fn domain(&self) -> Range<u32>
        ensures start { result.start ≡ first_knot self.now.knots.now }
        ensures end { result.end ≡ last_knot self.now.knots.now }
    {
        self.knots[0]..self.knots[self.knots.len() - 1]
    }

    // The last index whose knot is at most u, by halving: the number of turns depends on count and
    // degree alone.
    fn search(&self, u: u32) -> usize
        requires within { (first_knot self.now.knots.now ≤ u) × (u < last_knot self.now.knots.now) }
        ensures value { result ≡ span_of self.now.knots.now u }
        ensures held { Span self.now.degree self.now.count self.now.knots.now u result }
    {
        self.degree + self.knots[self.degree + 1..self.count].partition_point(|knot| *knot <= u)
    }

    // The index k of the span that holds u: the last index whose knot is at most u.
    pub fn span(&self, u: i64) -> Result<usize, PieceFault>
        ensures { MatchResult result
            (λ k. (in_domain self.now.knots.now u ≡ true) × (k ≡ span_of self.now.knots.now (unsigned_abs u)) × Span self.now.degree self.now.count self.now.knots.now (unsigned_abs u) k)
            (λ e. (in_domain self.now.knots.now u ≡ false) × (e ≡ OffDomain)) }
    {
        match u32::try_from(u) {
            Ok(u) if self.domain().contains(&u) => Ok(self.search(u)),
            _ => Err(PieceFault::OffDomain),
        }
    }
}
