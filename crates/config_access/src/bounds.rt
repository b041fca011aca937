// The place and width of a configuration access.
ghost use Rattle.std.specs.Prelude.{◌≡◌, ◌||◌, eqb};
ghost use Rattle.model.specs.Calls.{bad_config};

// A configuration access has 1, 2 or 4 bytes.
pub fn is_config_width(width: u8) -> bool
    ensures { result ≡ (eqb width 1 || eqb width 2 || eqb width 4) }
{
    if width == 1 {
        return true;
    }
    if width == 2 {
        return true;
    }
    width == 4
}

// Refusal 3: width not 1, 2, 4, offset not a multiple of it, or above 255.
pub fn bad_config(offset: u16, width: u8) -> bool
    ensures { result ≡ bad_config offset width }
{
    if !is_config_width(width) {
        return true;
    }
    if offset % (width as u16) != 0 {
        return true;
    }
    255 < offset
}
