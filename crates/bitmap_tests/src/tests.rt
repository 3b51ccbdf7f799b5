//! Rows, bitmaps and pages of dots, with bytes worked out by hand.
ghost use Rattle.std.specs.Prelude.{◌≤◌};
ghost use Rattle.packed_rows.specs.Coordinates.{IsCoordinate};

mod glyphs;
mod pages;
mod rasters;
mod rows;
mod sheets;
mod texts;

use packed_rows::{MAX_COORDINATE, PackedBitmap, Span};
use std::alloc::{AllocError as NoMemory, Global};

// The columns from the first up to but not including the second, or rows so.
type Stretch = (usize, usize);

// A stretch of a side.
fn span(stretch: Stretch, side: u32) -> Span
    ensures ordered { result.from ≤ result.until }
    ensures inside { result.until ≤ side }
{
    let (from, until) = stretch;
    let until = until.min(side as usize);
    Span {
        from: from.min(until),
        until,
    }
}

// A number that may be a coordinate.
fn near(at: i64) -> i64
    ensures { IsCoordinate result }
{
    let farthest = MAX_COORDINATE as i64;
    at.max(-farthest).min(farthest)
}

// A raster's width and height, and its black rectangles, each as columns and rows.
type Shape = (u8, u8, &'static [(Stretch, Stretch)]);

fn raster(alloc: Global, shape: &Shape) -> Result<PackedBitmap, NoMemory> {
    let (width, height, rectangles) = *shape;
    let mut raster = PackedBitmap::white(alloc, u32::from(width), u32::from(height))?;
    for (columns, rows) in rectangles {
        let (columns, rows) = (span(*columns, raster.width()), span(*rows, raster.height()));
        raster.blacken(columns, rows);
    }
    Ok(raster)
}

// Dots as the bytes of rows.
fn bytes_of_dots(alloc: Global, width: u32, dots: &[bool]) -> Result<Vec<u8>, NoMemory> {
    let mut bytes = Vec::new(alloc);
    let mut byte = 0u8;
    let mut column = 0u32;
    for dot in dots {
        if *dot {
            byte |= 0x80 >> (column % 8);
        }
        column = column.wrapping_add(1);
        if column >= width || column % 8 == 0 {
            bytes.push(byte)?;
            byte = 0;
        }
        if column >= width {
            column = 0;
        }
    }
    Ok(bytes)
}
