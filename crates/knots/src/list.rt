ghost use Rattle.std.specs.Prelude.{◌≡◌, ◌+◌, ◌≤◌};
ghost use Rattle.knots.specs.Lawful.{Lawful, first_knots};

// The most knots that a piece has: 64 control points of degree 5.
pub const MOST_KNOTS: usize = 70;

// Degree, number of control points and knots of a piece, a plain record: the knots in use are
// the first `count + degree + 1`; in a list that was judged the places after them hold 0.
#[derive(Clone, Copy)]
pub struct KnotList {
    pub degree: usize,
    pub count: usize,
    pub knots: [u32; MOST_KNOTS],
}

impl KnotList {
    // The knots in use.
    pub fn in_use(&self) -> &[u32]
        requires { self.now.count + self.now.degree + 1 ≤ 70 }
        ensures { result.now ≡ first_knots self.now.degree self.now.count self.now.knots }
    {
        first_knots(self.degree, self.count, &self.knots)
    }
}

// The knots in use of stored knots, for parts that stand in no record.
pub fn first_knots(degree: usize, count: usize, knots: &[u32; MOST_KNOTS]) -> &[u32]
    requires { count + degree + 1 ≤ 70 }
    ensures { result.now ≡ first_knots degree count knots.now }
{
    &knots[..count + degree + 1]
}

// A knot list that is lawful.
#[derive(Clone, Copy)]
pub struct LawfulList {
    pub list: KnotList,
    ghost lawful: { Lawful list.degree list.count (first_knots list.degree list.count list.knots) },
}

impl LawfulList {
    // The knots in use.
    pub fn in_use(&self) -> &[u32]
        ensures { result.now ≡ first_knots self.now.list.degree self.now.list.count self.now.list.knots }
    {
        self.list.in_use()
    }

    // The same list, its knots in use lent.
    pub fn lent(&self) -> Knots<'_>
        ensures degree { result.degree ≡ self.now.list.degree }
        ensures count { result.count ≡ self.now.list.count }
        ensures knots { result.knots.now ≡ first_knots self.now.list.degree self.now.list.count self.now.list.knots }
    {
        Knots {
            degree: self.list.degree,
            count: self.list.count,
            knots: self.in_use(),
        }
    }
}

// A lawful knot list on knots that are lent.
#[derive(Clone, Copy)]
pub struct Knots<'a> {
    pub degree: usize,
    pub count: usize,
    pub knots: &'a [u32],
    ghost lawful: { Lawful degree count knots.now },
}
