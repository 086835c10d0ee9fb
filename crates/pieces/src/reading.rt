ghost use Rattle.std.specs.Prelude.{◌≡◌, map, length, pos, Some, None, MatchResult};
ghost use Rattle.knots.specs.Spans.{Span};
ghost use Rattle.refusals.specs.declared.piece.PieceFault.TheVariants.{OffDomain};
ghost use Rattle.pieces.specs.Curves.{KeepsToCurve};
ghost use Rattle.pieces.specs.Reading.{reading};
ghost use Rattle.pieces.specs.Triangle.{de_boor};

use crate::triangle::Window;
use knots::list::Knots;
use points::point::Point;
use refusals::piece::PieceFault;

// A lawful knot list and as many control points as it asks for, all of them lent.
#[derive(Drop)]
pub struct Piece<'k, 'p, P: Point> {
    pub knots: Knots<'k>,
    pub points: &'p [P],
    ghost counted: { length points.now ≡ knots.count },
}

impl<P: Point> Piece<'_, '_, P> {
    // The reading at u of the span k, from the control points that govern it.
    fn read_span(&self, u: u32, k: usize) -> (P, usize)
        requires { Span self.now.knots.degree self.now.knots.count self.now.knots.knots.now u k }
        ensures value { (P.told result.0, result.1) ≡ de_boor self.now.knots.degree self.now.knots.knots.now (map P.told self.now.points.now) u k }
        ensures keeps { KeepsToCurve self.now.knots.degree self.now.knots.knots.now (map P.told self.now.points.now) (pos u) (P.told result.0) result.1 }
    {
        let degree = self.knots.degree;
        let window = Window {
            degree,
            knots: &self.knots.knots[k - degree..=k + degree],
            polygon: &self.points[k - degree..=k],
            u,
        };
        window.triangle()
    }

    // The point at u, and the number of rounds that hold an inexact blend. It keeps to the exact
    // spline within half a step for each of these rounds, and to the box of the control points.
    pub fn read(&self, u: i64) -> Result<(P, usize), PieceFault>
        ensures value { MatchResult result
            (λ v. reading self.now.knots.degree self.now.knots.knots.now (map P.told self.now.points.now) u ≡ Some (P.told v.0, v.1))
            (λ e. (reading self.now.knots.degree self.now.knots.knots.now (map P.told self.now.points.now) u ≡ None) × (e ≡ OffDomain)) }
        ensures keeps { MatchResult result
            (λ v. KeepsToCurve self.now.knots.degree self.now.knots.knots.now (map P.told self.now.points.now) u (P.told v.0) v.1)
            (λ _. Unit {0}) }
    {
        let k = self.knots.span(u)?;
        Ok(self.read_span(u as u32, k))
    }
}
