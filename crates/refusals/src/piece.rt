ghost use Rattle.std.specs.Prelude.{◌≡◌};
ghost use Rattle.refusals.specs.Causes.{piece_report};

use crate::report::{Layer, Report};

// Why degree, count and knots make no piece, or why a piece has no reading.
#[derive(Clone, Copy, PartialEq, Eq, Debug)]
pub enum PieceFault {
    // the degree is not 1 to 5
    Degree,
    // fewer control points than the degree and one, or more than 64
    Count,
    // not as many knots as control points, degree and one together
    KnotCount,
    // the first knot that is not 0 to 1,048,576, by its index
    KnotRange(usize),
    // the first knot below the one before, by its index
    KnotFalls(usize),
    // a value that stands too often or too seldom
    KnotRepeats,
    // a parameter off the domain
    OffDomain,
}

// What a fault of a piece tells.
impl From<PieceFault> for Report {
    ghost from_gives = { λ e r. r ≡ piece_report e };

    fn from(fault: PieceFault) -> Report {
        let (number, place) = match fault {
            PieceFault::Degree => (4, 0),
            PieceFault::Count => (5, 0),
            PieceFault::KnotCount => (6, 0),
            PieceFault::KnotRange(i) => (7, i),
            PieceFault::KnotFalls(i) => (8, i),
            PieceFault::KnotRepeats => (9, 0),
            PieceFault::OffDomain => (23, 0),
        };
        Report {
            number,
            layer: Layer::Piece,
            place,
        }
    }
}
