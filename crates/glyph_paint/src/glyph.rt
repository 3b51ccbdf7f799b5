//! One glyph on the page.

ghost use Rattle.std.specs.Prelude.{◌≡◌, ℕ, ◌<◌, ◌||◌, pos, ◌-ℤ◌, List, ◌∷◌};
ghost use Rattle.packed_rows.specs.Bitmap.{is_black};
ghost use Rattle.packed_rows.specs.Coordinates.{IsCoordinate};
ghost use Rattle.packed_rows.specs.Stamped.{is_black_at};
ghost use Rattle.raster_page.specs.Ink.{Inked, Dots, page_of, with_mark};

use pk_runs::Raster;
use raster_page::Page;

/// Makes the dots of the page black that lie on a black pixel of the raster, whose upper left pixel
/// lies in column `x` of row `y`. The others stay, and what lies beside the page is cut off (Knuth,
/// DVItype, "Translation to symbolic form": where a character stands).
#[inline(always)]
pub fn paint(page: &mut Page, raster: &Raster, x: i64, y: i64)
    requires left { IsCoordinate x }
    requires top { IsCoordinate y }

    ensures ink { page.new ≡ with_mark page.old (Dots raster.now x y) }
    ensures dots { (column row : ℕ) → column < page.old.width → row < page.old.height →
        is_black page.new column row
        ≡ (is_black_at raster.now (pos column -ℤ x) (pos row -ℤ y)
        || is_black page.old column row) }
    ensures width { page.new.width ≡ page.old.width }
    ensures height { page.new.height ≡ page.old.height }
    ensures marks { (marks : List Inked) → page.old ≡ page_of page.old.width page.old.height marks →
        page.new ≡ page_of page.old.width page.old.height (Dots raster.now x y ∷ marks) }
{
    page.stamp(raster.bits(), x, y);
}
