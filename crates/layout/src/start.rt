// The checks of a start, in document 01's order.
ghost use Rattle.std.specs.Prelude.{◌≡◌, ◌+◌, ◌^◌, ◌≤◌, ◌<◌};
ghost use Rattle.model.specs.Refusals.{refusal_in};
ghost use Rattle.model.specs.Shape.{form_of, shape_of, table_bytes, pending_bytes};
ghost use Rattle.model.specs.Start.{given, bad_header, outside, bad_regions, bad_events, bad_buffers, start_refusal};
ghost use Rattle.layout.specs.Places.{listing_of};
ghost use Rattle.layout.specs.Shapes.{Bounded};
ghost use Rattle.layout.specs.Checks.{listed_twice};

use crate::capability::{Found, Listing, read_list};
use crate::form::form;
use crate::shape::shape;
use crate::structure::bad_structures;
use model::refusal::Refusal;
use model::{Form, Region, Shape};

// Why a start is refused, if it is; and what its configuration says in either case: its shape, and the form of its MSI.
#[derive(Clone, Copy)]
pub struct Checked {
    pub verdict: Result<(), Refusal>,
    pub shape: Shape,
    pub form: Form,
}

// The lengths of table and pending array.
pub fn table_bytes(s: Shape) -> usize
    requires { s.msix.vectors ≤ 2048 }
    ensures { (result ≡ table_bytes s) × (result ≤ 32768) }
{
    16 * s.msix.vectors
}

pub fn pending_bytes(s: Shape) -> usize
    requires { s.msix.vectors ≤ 2048 }
    ensures { (result ≡ pending_bytes s) × (result ≤ 256) }
{
    8 * ((s.msix.vectors + 63) / 64)
}

// 10: byte 0Eh low seven bits not 0, or pin (3Dh) above 4
fn bad_header(c: &[u8; 256]) -> bool
    ensures { result ≡ bad_header c.now }
{
    c[0x0e] % 128 != 0 || 4 < c[0x3d]
}

// 12: ID 05h or 11h listed twice
fn listed_twice(l: Listing) -> bool
    ensures { result ≡ listed_twice l }
{
    matches!(l.msi, Found::Again(..)) || matches!(l.msix, Found::Again(..))
}

// n bytes in a BAR: a BIR above 5, or past the BAR's size
fn outside(sizes: &[u32; 6], r: Region, n: usize) -> bool
    requires { r.at + n < 2 ^ 64 }
    ensures { result ≡ outside sizes.now r n }
{
    5 < r.bar || (sizes[r.bar] as usize) < r.at + n
}

// 14: table or pending array outside, or the two overlapping in one BAR
fn bad_regions(sizes: &[u32; 6], s: Shape) -> bool
    requires { Bounded s }
    ensures { result ≡ bad_regions sizes.now s }
{
    let table = s.msix.table;
    let pending = s.msix.pending;
    let n = table_bytes(s);
    let m = pending_bytes(s);
    s.msix.at != 0
        && (outside(sizes, table, n)
            || outside(sizes, pending, m)
            || (table.bar == pending.bar && words::ranges::overlap(table.at, n, pending.at, m)))
}

// 15: E not 1 to 2,048, or MSI-X present and N not E
fn bad_events(events: u16, s: Shape) -> bool
    ensures { result ≡ bad_events events s }
{
    events == 0 || 2048 < events || (s.msix.at != 0 && s.msix.vectors != events as usize)
}

// 17: table buffer not 16N bytes, or pending buffer not 8 x (N/64 rounded up) bytes
fn bad_buffers(s: Shape, table: usize, pending: usize) -> bool
    requires { s.msix.vectors ≤ 2048 }
    ensures { result ≡ bad_buffers s table pending }
{
    table != table_bytes(s) || pending != pending_bytes(s)
}

// Rows 10 to 17, from what the walk found and the shape.
fn refuse<'a>(
    config: &'a [u8; 256],
    sizes: &'a [u32; 6],
    events: u16,
    requester: u16,
    table: usize,
    pending: usize,
    listing: Option<Listing>,
    s: Shape,
    f: Form,
) -> Result<(), Refusal>
    requires { (listing ≡ listing_of config.now) × (s ≡ shape_of config.now) × Bounded s × (f ≡ form_of s) }
    ensures { refusal_in result ≡ start_refusal (given config.now sizes.now events requester table pending) }
{
    if bad_header(config) {
        return Err(Refusal::Header);
    }
    let Some(l) = listing else {
        return Err(Refusal::List);
    };
    if listed_twice(l) {
        return Err(Refusal::Twice);
    }
    if bad_structures(config, s, f) {
        return Err(Refusal::Structure);
    }
    if bad_regions(sizes, s) {
        return Err(Refusal::Region);
    }
    if bad_events(events, s) {
        return Err(Refusal::Events);
    }
    if requester % 8 != 0 {
        return Err(Refusal::Requester);
    }
    if bad_buffers(s, table, pending) {
        return Err(Refusal::Buffers);
    }
    Ok(())
}

// In parts, since a start that first makes a function of them took a quarter longer. What a start is given: the configuration, the BAR sizes, E, the requester ID, and the lengths of the lent buffers.
pub fn check_start<'a>(
    config: &'a [u8; 256],
    sizes: &'a [u32; 6],
    events: u16,
    requester: u16,
    table: usize,
    pending: usize,
) -> Checked
    ensures refusal { refusal_in result.verdict ≡ start_refusal (given config.now sizes.now events requester table pending) }
    ensures checked { (result.shape ≡ shape_of config.now) × Bounded result.shape × (result.form ≡ form_of result.shape) }
{
    let listing = read_list(config);
    let s = shape(config, listing);
    let f = form(s);
    let verdict = refuse(
        config, sizes, events, requester, table, pending, listing, s, f,
    );
    Checked {
        verdict,
        shape: s,
        form: f,
    }
}
