ghost use Rattle.std.specs.Prelude.{◌≡◌, Some};
ghost use Rattle.refusals.specs.Layers.{layer_name};

use std::fmt;

// The layer of the unit that found the cause of a refusal.
#[derive(Clone, Copy, PartialEq, Eq, Debug)]
pub enum Layer {
    Text,
    Bench,
    Piece,
    Point,
    Outline,
}

impl Layer {
    // The name as a refusal tells it.
    pub fn name(self) -> &'static str
        ensures { result.now ≡ layer_name self }
    {
        match self {
            Layer::Text => "text",
            Layer::Bench => "bench",
            Layer::Piece => "piece",
            Layer::Point => "point",
            Layer::Outline => "outline",
        }
    }
}

// The name.
impl fmt::Display for Layer {
    ghost output = { λ layer. Some (layer_name layer) };

    fn fmt<W: fmt::Write>(&self, f: &mut fmt::Formatter<W>) -> fmt::Result {
        f.write_str(self.name())
    }
}

// What a refusal tells: the number of its cause, the layer that found it, and the place in the
// input that is at fault, which is 0 where a cause names none.
#[derive(Clone, Copy, PartialEq, Eq, Debug)]
pub struct Report {
    pub number: u8,
    pub layer: Layer,
    pub place: usize,
}

// Number, layer and place, with a space between.
impl fmt::Display for Report {
    ghost use Rattle.refusals.specs.Layers.{report_text};

    ghost output = { λ report. Some (report_text report) };

    fn fmt<W: fmt::Write>(&self, f: &mut fmt::Formatter<W>) -> fmt::Result {
        write!(f, "{} {} {}", self.number, self.layer, self.place)
    }
}
