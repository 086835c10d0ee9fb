//! A cutting list: sections are laid on lent memory and read at whole parameters of their
//! domains, and what is refused is shown with its cause.

#![tactic(auto)]

mod drawings;
mod listing;

use drawings::{BAND, FALLING_KNOTS, FAR_POINT, INVERTED_BAND, LOOSE_END, PLANE, SPACE};
use kinds::band::Band;
use kinds::plane::PlanePoint;
use kinds::space::SpacePoint;
use listing::list_section;
use std::io;

fn main(rt: HostRuntime) -> io::Result<()> {
    let mut plane = [PlanePoint { x: 0, y: 0 }; 64];
    let mut space = [SpacePoint { x: 0, y: 0, z: 0 }; 64];
    let mut band = [Band { low: 0, high: 0 }; 64];
    println!(rt; "Cutting list, one grid step is 1/1024 mm")?;
    list_section(&rt, &PLANE, &mut plane)?;
    list_section(&rt, &SPACE, &mut space)?;
    list_section(&rt, &BAND, &mut band)?;
    list_section(&rt, &FALLING_KNOTS, &mut plane)?;
    list_section(&rt, &LOOSE_END, &mut plane)?;
    list_section(&rt, &FAR_POINT, &mut space)?;
    list_section(&rt, &INVERTED_BAND, &mut band)
}
