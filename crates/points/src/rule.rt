ghost use Rattle.points.specs.Boxes.{BoxFitsItsPoints};
ghost use Rattle.points.specs.Lists.{RefusesWhatIsNoPoint};

// A theorem: the causes of `make` and what it is to be a point say the same.
#[tactic(auto, using(crate::proofs::Shapes::refuses_what_is_no_point))]
pub fn refuses_what_is_no_point()
    ensures { RefusesWhatIsNoPoint }
{}

// A theorem: the box of points holds each of them, and has one at either end of each coordinate.
pub fn box_fits_its_points()
    ensures { BoxFitsItsPoints }
{}
