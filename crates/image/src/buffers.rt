// The table and the pending array of an image.
ghost use Rattle.std.specs.Prelude.{◌≡◌, length, take, drop};
ghost use Rattle.image.specs.Layout.{image_size};

use crate::format::Image;

// Copied into the lent buffers, which an image of this length fills. Not by the library's `copy_from_slice`: of a slice of unknown length that is
// `memmove`, which the card's archive would need from outside.
pub fn copy_buffers(image: &[u8], table: &mut [u8], pending: &mut [u8])
    requires { length image.now ≡ image_size (length table.old) (length pending.old) }
    ensures { (table.new ≡ take (length table.old) (drop 294 image.now))
        × (pending.new ≡ drop (length table.old) (drop 294 image.now)) }
{
    let start = Image::TABLE;
    let middle = start + table.len();
    words::put::put_slice(table, &image[start..middle]);
    words::put::put_slice(pending, &image[middle..]);
}
