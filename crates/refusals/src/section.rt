ghost use Rattle.std.specs.Prelude.{◌≡◌};
ghost use Rattle.refusals.specs.Causes.{section_report};
ghost use Rattle.refusals.specs.declared.section.SectionFault.TheVariants.{Piece, Point};

use crate::piece::PieceFault;
use crate::point::PointFault;
use crate::report::Report;

// Why a drawing makes no section: the fault of the layer that found it, carried whole.
#[derive(Clone, Copy, PartialEq, Eq, Debug)]
pub enum SectionFault {
    Piece(PieceFault),
    Point(PointFault),
}

impl From<PieceFault> for SectionFault {
    ghost from_gives = { λ e r. r ≡ Piece e };

    fn from(fault: PieceFault) -> SectionFault {
        SectionFault::Piece(fault)
    }
}

impl From<PointFault> for SectionFault {
    ghost from_gives = { λ e r. r ≡ Point e };

    fn from(fault: PointFault) -> SectionFault {
        SectionFault::Point(fault)
    }
}

// What the layer that found the fault tells of it.
impl From<SectionFault> for Report {
    ghost from_gives = { λ e r. r ≡ section_report e };

    fn from(fault: SectionFault) -> Report {
        match fault {
            SectionFault::Piece(e) => e.into(),
            SectionFault::Point(e) => e.into(),
        }
    }
}
