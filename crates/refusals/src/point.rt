ghost use Rattle.std.specs.Prelude.{◌≡◌};
ghost use Rattle.refusals.specs.Causes.{point_report};

use crate::report::{Layer, Report};

// Why a list of coordinates is no point of a kind.
#[derive(Clone, Copy, PartialEq, Eq, Debug)]
pub enum PointFault {
    // the wrong number of coordinates
    Count,
    // the first coordinate out of range, by its index
    Range(usize),
    // the condition of the kind failed
    Test,
}

// What a fault of a point tells.
impl From<PointFault> for Report {
    ghost from_gives = { λ e r. r ≡ point_report e };

    fn from(fault: PointFault) -> Report {
        let place = match fault {
            PointFault::Range(i) => i,
            PointFault::Count | PointFault::Test => 0,
        };
        Report {
            number: 10,
            layer: Layer::Point,
            place,
        }
    }
}
