//! Dimensions of fonts in DVI units.

use fix_word::{scale, tex_units};

// A fix_word at a size.
fn width(x: i32, z: u32) -> Option<i64> {
    if x < -(1 << 24) || x >= 1 << 24 || z == 0 || z >= 1 << 27 {
        return None;
    }
    Some(scale(x, z))
}

static WIDTHS: [(i32, u32, i64); 5] = [
    // half of ten points
    (524288, 655360, 327680),
    (1, 16777216, 16),
    // rounded down
    (-1, 10, -1),
    // the lowest bit is left out
    (1048576, 8388609, 8388608),
    (-16777216, 134217727, -2147483392),
];

#[test]
fn widths_at_a_size(rt: HostRuntime) {
    for (row, (x, z, units)) in WIDTHS.iter().enumerate() {
        assert_eq!(rt; width(*x, *z), Some(*units), "row {row}");
    }
}

// A design size in units of a preamble's fraction.
fn design(d: u32, num: u32, den: u32) -> Option<u64> {
    let sign = 1 << 31;
    if d == 0 || d >= sign || num == 0 || num >= sign || den == 0 || den >= sign {
        return None;
    }
    Some(tex_units(d, num, den))
}

static DESIGN_SIZES: [((u32, u32, u32), u64); 2] = [
    ((16166525, 1270, 3), 128),
    // ten points in TeX's units
    ((10485760, 25400000, 473628672), 655360),
];

#[test]
fn design_sizes(rt: HostRuntime) {
    for (row, ((d, num, den), units)) in DESIGN_SIZES.iter().enumerate() {
        assert_eq!(rt; design(*d, *num, *den), Some(*units), "row {row}");
    }
}
