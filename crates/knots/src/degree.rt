ghost use Rattle.std.specs.Prelude.{◌≤◌};

use refusals::piece::PieceFault;

// A degree that a piece may have.
#[derive(Clone, Copy, PartialEq, Eq, Debug)]
pub(crate) struct Degree {
    pub value: usize,
    ghost lawful: { (1 ≤ value) × (value ≤ 5) },
}

impl TryFrom<i64> for Degree {
    type Error = PieceFault;

    ghost use Rattle.std.specs.Prelude.{◌≡◌, true, false, pos, MatchResult};
    ghost use Rattle.knots.specs.Lawful.{is_degree};
    ghost use Rattle.refusals.specs.declared.piece.PieceFault.TheVariants as fault;

    ghost try_from_gives = { λ degree r. MatchResult r
        (λ d. (is_degree degree ≡ true) × (degree ≡ pos d.value))
        (λ e. (is_degree degree ≡ false) × (e ≡ fault.Degree)) };

    fn try_from(degree: i64) -> Result<Degree, PieceFault> {
        match usize::try_from(degree) {
            Ok(value @ 1..=5) => Ok(Degree { value }),
            _ => Err(PieceFault::Degree),
        }
    }
}
