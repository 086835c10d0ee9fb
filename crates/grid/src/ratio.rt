ghost use Rattle.grid.specs.Blend.{IsRatio};

// Where between two points a blend is taken: at `part` of `whole`.
#[derive(Clone, Copy, PartialEq, Eq, Debug)]
pub struct Ratio {
    pub part: u32,
    pub whole: u32,
    ghost proper: { IsRatio part whole },
}
