//! The drawings of the list: three sections, and four that are refused.

use crate::listing::Listing;
use pieces::section::Drawing;

pub const PLANE: Listing = Listing {
    name: "frame 7, plane, degree 2",
    drawing: Drawing {
        degree: 2,
        knots: &[0, 0, 0, 4, 8, 8, 8],
        points: &[&[0, 0], &[4, 8], &[12, 8], &[16, 0]],
    },
    stride: 1,
};

pub const SPACE: Listing = Listing {
    name: "sheer line, space, degree 3, every 512th",
    drawing: Drawing {
        degree: 3,
        knots: &[0, 0, 0, 0, 2048, 3072, 5120, 5120, 5120, 5120],
        points: &[
            &[0, 1_024_000, 0],
            &[614_400, 1_126_400, 2_048_001],
            &[1_228_800, 1_075_201, 4_096_000],
            &[1_536_000, 972_800, 6_144_007],
            &[1_228_799, 1_024_000, 8_192_000],
            &[-307_200, 1_331_200, 10_240_000],
        ],
    },
    stride: 512,
};

pub const BAND: Listing = Listing {
    name: "plate thickness, band, degree 1, every 2nd",
    drawing: Drawing {
        degree: 1,
        knots: &[3, 3, 6, 9, 13, 13],
        points: &[
            &[12_200, 12_400],
            &[12_250, 12_301],
            &[11_980, 12_302],
            &[12_100, 12_100],
        ],
    },
    stride: 2,
};

pub const FALLING_KNOTS: Listing = Listing {
    name: "a knot below the one before",
    drawing: Drawing {
        degree: 2,
        knots: &[0, 0, 0, 4, 3, 8, 8, 8],
        points: &[&[0, 0], &[4, 8], &[8, 8], &[12, 8], &[16, 0]],
    },
    stride: 1,
};

pub const LOOSE_END: Listing = Listing {
    name: "a last knot that stands too seldom",
    drawing: Drawing {
        degree: 2,
        knots: &[0, 0, 0, 4, 7, 8, 8],
        points: &[&[0, 0], &[4, 8], &[12, 8], &[16, 0]],
    },
    stride: 1,
};

pub const FAR_POINT: Listing = Listing {
    name: "a coordinate out of range",
    drawing: Drawing {
        degree: 1,
        knots: &[0, 0, 8, 8],
        points: &[&[0, 0, 0], &[4, 1_073_741_825, 0]],
    },
    stride: 1,
};

pub const INVERTED_BAND: Listing = Listing {
    name: "a band whose low exceeds its high",
    drawing: Drawing {
        degree: 1,
        knots: &[0, 0, 8, 8],
        points: &[&[12_200, 12_400], &[12_500, 12_400]],
    },
    stride: 1,
};
