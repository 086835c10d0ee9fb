ghost use Rattle.std.specs.Prelude.{◌≤◌, length};

use pieces::reading::Piece;
use pieces::section::Drawing;
use points::point::Point;
use refusals::report::Report;
use std::io;

// A drawing with its name, to be read at every stride-th whole parameter, and at none where the
// stride is 0.
pub struct Listing<'a> {
    pub name: &'a str,
    pub drawing: Drawing<'a, 'a, 'a>,
    pub stride: usize,
}

// The line of a refusal.
fn refused(rt: &impl Print, report: Report) -> io::Result<()> {
    println!(rt; "refused {report}")
}

fn show_point<P: Point>(rt: &impl Print, point: &P) -> io::Result<()> {
    for i in 0..P::WIDTH {
        print!(rt; "{:>12}", point.coordinate(i).value)?;
    }
    Ok(())
}

// One reading: the parameter, the coordinates and the number of inexact rounds, or the refusal.
fn show_reading<P: Point>(rt: &impl Print, piece: &Piece<P>, u: i64) -> io::Result<()> {
    print!(rt; "{u:>9}")?;
    match piece.read(u) {
        Ok((point, rounds)) => {
            show_point(rt, &point)?;
            println!(rt; "{rounds:>9}")
        }
        Err(fault) => {
            print!(rt; "  ")?;
            refused(rt, fault.into())
        }
    }
}

// The readings at every stride-th whole parameter of the domain, and at its end, which is off it.
fn show_readings<P: Point>(rt: &impl Print, piece: &Piece<P>, stride: usize) -> io::Result<()> {
    println!(rt; "parameter, coordinates, inexact rounds:")?;
    let domain = piece.knots.domain();
    let end = i64::from(domain.end);
    if stride != 0 {
        for u in domain.step_by(stride) {
            show_reading(rt, piece, i64::from(u))?;
        }
    }
    show_reading(rt, piece, end)
}

// Lays a drawing on a memory and lists its readings, or shows why it is refused.
pub(crate) fn list_section<P: Point>(
    rt: &impl Print,
    listing: &Listing,
    memory: &mut [P],
) -> io::Result<()>
    requires { 64 ≤ length memory.old }
{
    println!(rt; "{}", listing.name)?;
    match listing.drawing.lay(memory) {
        Ok(lawful) => {
            let piece = Piece {
                knots: lawful.lent(),
                points: &memory[..lawful.list.count],
            };
            show_readings(rt, &piece, listing.stride)
        }
        Err(fault) => refused(rt, fault.into()),
    }
}
