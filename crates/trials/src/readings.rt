ghost use Rattle.std.specs.Prelude.{◌≤◌, length};

use crate::other_kinds::{Corner, Height};
use kinds::band::Band;
use kinds::plane::PlanePoint;
use kinds::space::SpacePoint;
use pieces::reading::Piece;
use pieces::section::Drawing;
use points::point::Point;
use refusals::report::Report;
use std::process::Abort;

// A drawing laid and read at u: the point and the number of inexact rounds, or what its refusal
// tells.
pub(crate) fn reading<P: Point>(
    memory: &mut [P],
    drawing: &Drawing,
    u: i64,
) -> Result<(P, usize), Report>
    requires { 64 ≤ length memory.old }
{
    let lawful = drawing.lay(memory)?;
    let piece = Piece {
        knots: lawful.lent(),
        points: &memory[..lawful.list.count],
    };
    Ok(piece.read(u)?)
}

// A drawing from its degree, knots and control points.
pub(crate) fn drawn<'k, 'l, 'x>(
    degree: i64,
    knots: &'k [i64],
    points: &'l [&'x [i64]],
) -> Drawing<'k, 'l, 'x> {
    Drawing {
        degree,
        knots,
        points,
    }
}

// The coordinates of a point as it tells them, and 0 past the last.
pub(crate) fn told<P: Point>(point: P) -> [i32; 4] {
    [0, 1, 2, 3].map(|i| point.coordinate(i).value)
}

// Holds a drawing's reading at u to what the point tells and to a number of inexact rounds.
fn reads<P: Point>(
    rt: &impl Abort,
    memory: &mut [P],
    drawing: &Drawing,
    u: i64,
    wanted: ([i32; 4], usize),
)
    requires { 64 ≤ length memory.old }
{
    let found = reading(memory, drawing, u).map(|(point, rounds)| (told(point), rounds));
    assert_eq!(rt; found, Ok(wanted), "at {u}");
}

fn plane(x: i32, y: i32) -> PlanePoint {
    PlanePoint { x, y }
}

#[test]
fn worked_readings(rt: HostRuntime) {
    let mut memory = [plane(0, 0); 64];
    let drawing = drawn(
        2,
        &[0, 0, 0, 4, 8, 8, 8],
        &[&[0, 0], &[4, 8], &[12, 8], &[16, 0]],
    );
    reads(&rt, &mut memory, &drawing, 0, ([0, 0, 0, 0], 0));
    reads(&rt, &mut memory, &drawing, 1, ([2, 4, 0, 0], 1));
    reads(&rt, &mut memory, &drawing, 2, ([4, 6, 0, 0], 0));
    reads(&rt, &mut memory, &drawing, 4, ([8, 8, 0, 0], 0));
    reads(&rt, &mut memory, &drawing, 7, ([14, 4, 0, 0], 1));
}

// Of two equally near numbers the larger, below zero too.
#[test]
fn halves_go_up(rt: HostRuntime) {
    let mut memory = [plane(0, 0); 64];
    let drawing = drawn(1, &[0, 0, 2, 2], &[&[0, 0], &[1, -1]]);
    reads(&rt, &mut memory, &drawing, 1, ([1, 0, 0, 0], 1));
    let drawing = drawn(1, &[0, 0, 2, 2], &[&[0, 0], &[3, -3]]);
    reads(&rt, &mut memory, &drawing, 1, ([2, -1, 0, 0], 1));
    let drawing = drawn(1, &[0, 0, 3, 3], &[&[0, 0], &[2, -2]]);
    reads(&rt, &mut memory, &drawing, 1, ([1, -1, 0, 0], 1));
}

#[test]
fn knots_that_stand_several_times(rt: HostRuntime) {
    let mut memory = [plane(0, 0); 64];
    let drawing = drawn(
        2,
        &[1, 1, 1, 3, 3, 8, 8, 8],
        &[&[0, 0], &[5, -5], &[6, 7], &[-8, 9], &[1, 1]],
    );
    reads(&rt, &mut memory, &drawing, 2, ([5, 0, 0, 0], 2));
    reads(&rt, &mut memory, &drawing, 3, ([6, 7, 0, 0], 0));
    reads(&rt, &mut memory, &drawing, 7, ([-2, 4, 0, 0], 2));
}

#[test]
fn space_and_bands(rt: HostRuntime) {
    let mut space = [SpacePoint { x: 0, y: 0, z: 0 }; 64];
    let drawing = drawn(
        2,
        &[0, 0, 0, 7, 7, 7],
        &[&[0, 0, 0], &[9, -9, 3], &[2, 1, 1]],
    );
    reads(&rt, &mut space, &drawing, 4, ([5, -4, 2, 0], 2));
    let mut band = [Band { low: 0, high: 0 }; 64];
    let drawing = drawn(1, &[0, 0, 4, 4], &[&[0, 2], &[5, 5]]);
    reads(&rt, &mut band, &drawing, 2, ([3, 4, 0, 0], 1));
}

// One coordinate, at the limits of knots and coordinates.
#[test]
fn a_kind_of_width_one(rt: HostRuntime) {
    let mut memory = [Height { z: 0 }; 64];
    let knots = [0, 0, 1_048_576, 1_048_576];
    let drawing = drawn(1, &knots, &[&[-1_073_741_824], &[1_073_741_824]]);
    reads(
        &rt,
        &mut memory,
        &drawing,
        1,
        ([-1_073_739_776, 0, 0, 0], 0),
    );
    reads(
        &rt,
        &mut memory,
        &drawing,
        1_048_575,
        ([1_073_739_776, 0, 0, 0], 0),
    );
    let drawing = drawn(1, &knots, &[&[-1_073_741_824], &[1_073_741_823]]);
    reads(&rt, &mut memory, &drawing, 524_288, ([0, 0, 0, 0], 1));
}

// Four coordinates, at the greatest degree.
#[test]
fn a_kind_of_width_four(rt: HostRuntime) {
    let mut memory = [Corner {
        x: 0,
        y: 0,
        port: 0,
        starboard: 0,
    }; 64];
    let drawing = drawn(
        5,
        &[10, 10, 10, 10, 10, 10, 17, 17, 17, 17, 17, 17],
        &[
            &[0, 3, -9, 100],
            &[7, -8, 2, 101],
            &[-30, 50, 1, 99],
            &[44, 4, -4, -1000],
            &[5, 6, 7, 8],
            &[1_073_741_824, -1_073_741_824, 0, 1],
        ],
    );
    reads(&rt, &mut memory, &drawing, 10, ([0, 3, -9, 100], 0));
    reads(
        &rt,
        &mut memory,
        &drawing,
        13,
        ([15_524_443, -15_524_423, 0, -193], 5),
    );
}

// The longest piece: 64 control points of degree 5.
#[test]
fn the_longest_piece(rt: HostRuntime) {
    let mut memory = [plane(0, 0); 64];
    let points = [&[7, -7][..]; 64];
    let drawing = drawn(5, &LONGEST, &points);
    for u in [0, 31, 58] {
        reads(&rt, &mut memory, &drawing, u, ([7, -7, 0, 0], 0));
    }
}

// The most knots that a piece has.
const LONGEST: [i64; 70] = [
    0, 0, 0, 0, 0, 0, 1, 2, 3, 4, 5, 6, 7, 8, 9, 10, 11, 12, 13, 14, 15, 16, 17, 18, 19, 20, 21,
    22, 23, 24, 25, 26, 27, 28, 29, 30, 31, 32, 33, 34, 35, 36, 37, 38, 39, 40, 41, 42, 43, 44, 45,
    46, 47, 48, 49, 50, 51, 52, 53, 54, 55, 56, 57, 58, 59, 59, 59, 59, 59, 59,
];
