ghost use Rattle.knots.specs.Lawful.{RefusesTheUnlawful};

// A theorem: the causes of `judge` and the rule of lawful knots say the same.
#[tactic(auto, using(crate::proofs::Lawfuls::refuses_the_unlawful))]
pub fn refuses_the_unlawful()
    ensures { RefusesTheUnlawful }
{}
