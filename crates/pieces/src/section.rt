ghost use Rattle.std.specs.Prelude.{◌≡◌, ◌≤◌, map, length, take, drop, Some, None, MatchResult};
ghost use Rattle.knots.specs.Lawful.{Stores};
ghost use Rattle.pieces.specs.Sections.{section_refusal};

use knots::judge::judge;
use knots::list::LawfulList;
use points::point::Point;
use points::row::CheckedRow;
use refusals::section::SectionFault;

// A section as a draughtsman gives it, nothing of it checked.
#[derive(Clone, Copy)]
pub struct Drawing<'k, 'l, 'x> {
    pub degree: i64,
    pub knots: &'k [i64],
    pub points: &'l [&'x [i64]],
}

impl Drawing<'_, '_, '_> {
    // Lays the section from the start of a memory; where it is refused, the memory stays.
    pub fn lay<P: Point>(&self, memory: &mut [P]) -> Result<LawfulList, SectionFault>
        requires { 64 ≤ length memory.old }
        ensures refusal { MatchResult result
            (λ l. (section_refusal P.WIDTH P.passes self.now.degree (length self.now.points.now) self.now.knots.now (map (λ x. x.now) self.now.points.now) ≡ None)
            × Stores self.now.degree (length self.now.points.now) self.now.knots.now l.list)
            (λ e. section_refusal P.WIDTH P.passes self.now.degree (length self.now.points.now) self.now.knots.now (map (λ x. x.now) self.now.points.now) ≡ Some e) }
        ensures memory { MatchResult result
            (λ _. (map P.told (take (length self.now.points.now) memory.new) ≡ map (λ x. x.now) self.now.points.now)
            × (drop (length self.now.points.now) memory.new ≡ drop (length self.now.points.now) memory.old))
            (λ _. memory.new ≡ memory.old) }
    {
        let list = judge(self.degree, self.points.len(), self.knots)?;
        let row = CheckedRow::<P>::check(self.points)?;
        row.fill(memory);
        Ok(list)
    }
}
