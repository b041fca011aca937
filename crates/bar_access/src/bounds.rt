// The place and width of an access of a BAR.
ghost use Rattle.std.specs.Prelude.{◌≡◌, ◌||◌, eqb, ◌≤◌};
ghost use Rattle.model.specs.Calls.{bad_bar};

use model::Shape;
use registers::bar::{in_pending, in_table};

// An access of a BAR has 4 or 8 bytes.
pub fn is_bar_width(width: u8) -> bool
    ensures { result ≡ (eqb width 4 || eqb width 8) }
{
    if width == 4 {
        return true;
    }
    width == 8
}

// Refusal 4: BAR above 5, width not 4 or 8, offset not a multiple, or outside table and pending array.
pub fn bad_bar(s: Shape, bar: u8, offset: u32, width: u8) -> bool
    requires { s.msix.vectors ≤ 2048 }
    ensures { result ≡ bad_bar s bar offset width }
{
    if 5 < bar {
        return true;
    }
    if !is_bar_width(width) {
        return true;
    }
    if offset % (width as u32) != 0 {
        return true;
    }
    if in_table(s, bar, offset) {
        return false;
    }
    !in_pending(s, bar, offset)
}
