use crate::other_kinds::{Corner, Height};
use crate::readings::{drawn, reading, told};
use kinds::band::Band;
use kinds::plane::PlanePoint;
use kinds::space::SpacePoint;
use pieces::section::Drawing;
use points::point::Point;
use refusals::report::{Layer, Report};
use std::process::Abort;

// Holds a plane drawing to be refused, itself or its reading at u, and to what that tells.
fn refuses(rt: &impl Abort, drawing: Drawing, u: i64, wanted: Report) {
    let mut memory = [PlanePoint { x: 5, y: 6 }; 64];
    assert_eq!(rt; reading(&mut memory, &drawing, u), Err(wanted));
}

// What a fault of a piece is to tell.
fn piece(number: u8, place: usize) -> Report {
    Report {
        number,
        layer: Layer::Piece,
        place,
    }
}

// What a fault of a point is to tell.
fn point(place: usize) -> Report {
    Report {
        number: 10,
        layer: Layer::Point,
        place,
    }
}

// The control points of two drawings.
const LINE: [&[i64]; 2] = [&[0, 0], &[8, 8]];

const ARC: [&[i64]; 4] = [&[0, 0], &[4, 8], &[12, 8], &[16, 0]];

// One past the greatest coordinate.
const FAR: i64 = 1_073_741_825;

#[test]
fn degree_and_counts(rt: HostRuntime) {
    refuses(&rt, drawn(0, &[0, 0, 8, 8], &LINE), 0, piece(4, 0));
    refuses(&rt, drawn(6, &[0, 0, 8, 8], &LINE), 0, piece(4, 0));
    refuses(&rt, drawn(-9_999_999_999, &[], &[]), 0, piece(4, 0));
    refuses(&rt, drawn(2, &[0, 0, 0, 8, 8, 8], &LINE), 0, piece(5, 0));
    refuses(
        &rt,
        drawn(1, &[0, 0, 8], &[&[0, 0][..]; 65]),
        0,
        piece(5, 0),
    );
    refuses(&rt, drawn(1, &[0, 0, 8], &LINE), 0, piece(6, 0));
    refuses(&rt, drawn(1, &[0, 0, 4, 8, 8], &LINE), 0, piece(6, 0));
}

#[test]
fn knots_with_their_places(rt: HostRuntime) {
    refuses(&rt, drawn(1, &[0, -1, 8, 1_048_577], &LINE), 0, piece(7, 1));
    refuses(
        &rt,
        drawn(1, &[0, 0, 1_048_577, 9_999_999_999], &LINE),
        0,
        piece(7, 2),
    );
    refuses(&rt, drawn(1, &[0, 0, 8, 7], &LINE), 0, piece(8, 3));
    refuses(&rt, drawn(2, &[0, 0, 0, 4, 3, 2, 8], &ARC), 0, piece(8, 4));
}

// The first and the last value stand degree + 1 times, others at most degree times.
#[test]
fn repeated_values(rt: HostRuntime) {
    refuses(&rt, drawn(1, &[8, 8, 8, 8], &LINE), 8, piece(9, 0));
    refuses(&rt, drawn(2, &[0, 0, 1, 4, 8, 8, 8], &ARC), 1, piece(9, 0));
    refuses(&rt, drawn(2, &[0, 0, 0, 0, 8, 8, 8], &ARC), 1, piece(9, 0));
    refuses(&rt, drawn(2, &[0, 0, 0, 4, 7, 8, 8], &ARC), 1, piece(9, 0));
    refuses(&rt, drawn(2, &[0, 0, 0, 8, 8, 8, 8], &ARC), 1, piece(9, 0));
    refuses(&rt, drawn(1, &[0, 0, 4, 4, 8, 8], &ARC), 1, piece(9, 0));
}

// Points in order, each by its length, its coordinates and the condition of its kind; the
// indices of coordinates run through all points.
#[test]
fn points_with_their_places(rt: HostRuntime) {
    let knots = [0, 0, 8, 8];
    refuses(&rt, drawn(1, &knots, &[&[0, 0], &[8]]), 0, point(0));
    refuses(&rt, drawn(1, &knots, &[&[0, 0, 0], &[8, FAR]]), 0, point(0));
    refuses(&rt, drawn(1, &knots, &[&[0, 0], &[8, FAR]]), 0, point(3));
    refuses(&rt, drawn(1, &knots, &[&[0, -FAR], &[]]), 0, point(1));
    refuses(
        &rt,
        drawn(1, &[0, 0, 8, 7], &[&[0, -FAR], &[]]),
        0,
        piece(8, 3),
    );
}

#[test]
fn parameters_off_the_domain(rt: HostRuntime) {
    let arc = drawn(2, &[0, 0, 0, 4, 8, 8, 8], &ARC);
    refuses(&rt, arc, 8, piece(23, 0));
    refuses(&rt, arc, -1, piece(23, 0));
    refuses(&rt, arc, 4_294_967_297, piece(23, 0));
    refuses(&rt, arc, i64::MIN, piece(23, 0));
    refuses(&rt, drawn(1, &[3, 3, 8, 8], &LINE), 2, piece(23, 0));
}

#[test]
fn bands_and_records(rt: HostRuntime) {
    assert_eq!(rt; Band::make(&[3, 2]).map_err(Report::from), Err(point(0)));
    let band = Band { low: 9, high: -5 };
    assert_eq!(rt; told(band), [-5, 9, 0, 0]);
    assert_eq!(rt; told(band.flip()), [-9, 5, 0, 0]);
    let far = PlanePoint {
        x: i32::MIN,
        y: i32::MAX,
    };
    assert_eq!(rt; told(far), [-1_073_741_824, 1_073_741_824, 0, 0]);
    assert_eq!(rt; told(far.flip()), [1_073_741_824, 1_073_741_824, 0, 0]);
}

// A section that is refused for its last point has written none.
#[test]
fn a_refused_section_writes_nothing(rt: HostRuntime) {
    let before = [PlanePoint { x: 5, y: 6 }; 64];
    let mut memory = before;
    let answer = reading(&mut memory, &drawn(1, &[0, 0, 8, 8], &[&[1, 2], &[3]]), 0);
    assert!(rt; answer.is_err());
    assert_eq!(rt; memory, before);
}

#[test]
fn widths_and_flips(rt: HostRuntime) {
    assert_eq!(rt; PlanePoint::WIDTH, 2);
    assert_eq!(rt; SpacePoint::WIDTH, 3);
    assert_eq!(rt; Band::WIDTH, 2);
    assert_eq!(rt; told(PlanePoint { x: 1, y: 2 }.flip()), [-1, 2, 0, 0]);
    assert_eq!(rt; told(SpacePoint { x: 1, y: 2, z: 3 }.flip()), [-1, 2, 3, 0]);
    assert_eq!(rt; Band { low: 5, high: 9 }.flip(), Band { low: -9, high: -5 });
}

#[test]
fn flips_of_other_widths(rt: HostRuntime) {
    assert_eq!(rt; Height::WIDTH, 1);
    assert_eq!(rt; Corner::WIDTH, 4);
    assert_eq!(rt; told(Height { z: 4 }.flip()), [-4, 0, 0, 0]);
    let corner = Corner {
        x: 1,
        y: 2,
        port: 3,
        starboard: 4,
    };
    assert_eq!(rt; told(corner.flip()), [-1, 2, 4, 3]);
}
