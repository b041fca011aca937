// The four forms of the MSI capability.
ghost use Rattle.std.specs.Prelude.{◌≡◌, not, cond, ◌&&◌, ◌≤◌};
ghost use Rattle.model.specs.Shape.{forms, form_of};

use model::{Form, Shape};

// A row of the table, in bytes: an indexed constant table is written to the stack at each call, and sixteen words of it made the calls slower.
#[derive(Clone, Copy)]
struct Row {
    message: u8,
    mask: u8,
    pending: u8,
    size: u8,
}

// Where the data register is: in the 32-bit forms, and in the 64-bit ones.
const DATA_32: u8 = 0x08;

const DATA_64: u8 = 0x0c;

// By control bits 7 (64-bit) and 8 (masks). Document 01 names this form by place: a constant table of four rows.
const FORMS: [Row; 4] = [
    Row {
        message: DATA_32,
        mask: 0,
        pending: 0,
        size: 10,
    },
    Row {
        message: DATA_64,
        mask: 0,
        pending: 0,
        size: 14,
    },
    Row {
        message: DATA_32,
        mask: 0x0c,
        pending: 0x10,
        size: 20,
    },
    Row {
        message: DATA_64,
        mask: 0x10,
        pending: 0x14,
        size: 24,
    },
];

fn form_row(s: Shape) -> Form
    ensures { (result ≡ forms s.msi.masks s.msi.wide) × (result.size ≤ 24) }
{
    let row = FORMS[(s.msi.wide as usize) + 2 * (s.msi.masks as usize)];
    Form {
        message: row.message as usize,
        mask: row.mask as usize,
        pending: row.pending as usize,
        size: row.size as usize,
    }
}

// With control bit 9 (extended message data) the unmasked forms are two bytes longer.
fn upper_data(extended: bool, masks: bool) -> usize
    ensures { (result ≡ cond (extended && not masks) 2 0) × (result ≤ 2) }
{
    if extended && !masks { 2 } else { 0 }
}

// The form of a card's MSI.
pub fn form(s: Shape) -> Form
    ensures { result ≡ form_of s }
{
    let f = form_row(s);
    Form {
        size: f.size + upper_data(s.msi.extended, s.msi.masks),
        ..f
    }
}
