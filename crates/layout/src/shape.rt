// What the configuration, 256 bytes, says of MSI and MSI-X.
ghost use Rattle.std.specs.Prelude.{◌≡◌, ◌%◌, ◌≤◌, ◌<◌};
ghost use Rattle.words.specs.Bytes.{word32};
ghost use Rattle.model.specs.Shape.{msi_at, msix_at, region_at, shape_of};
ghost use Rattle.layout.specs.Places.{listing_of};
ghost use Rattle.layout.specs.Shapes.{msi_found, msix_found, Place, Placed, Bounded};

use crate::capability::{Found, Listing};
use model::{MsiShape, MsixShape, Region, Shape};

fn msi_at(c: &[u8; 256], a: usize) -> MsiShape
    requires { a < 253 }
    ensures { result ≡ msi_at c.now a }
{
    let low = usize::from(c[a + 2]);
    let high = usize::from(c[a + 3]);
    MsiShape {
        at: a,
        capable: low / 2 % 8,
        wide: low / 128 % 2 == 1,
        masks: high % 2 == 1,
        extended: high / 2 % 2 == 1,
    }
}

// The word at a multiple of 4. Past the end of the configuration it is 0.
fn word_at(c: &[u8; 256], at: usize) -> usize
    requires { (at % 4 ≡ 0) × (at < 512) }
    ensures { result ≡ word32 c.now at }
{
    if at + 4 <= 256 {
        words::get::word32(c, at) as usize
    } else {
        0
    }
}

// A BIR and the offset above it.
fn region_at(c: &[u8; 256], at: usize) -> Region
    requires { (at % 4 ≡ 0) × (at < 512) }
    ensures { result ≡ region_at c.now at }
{
    let w = word_at(c, at);
    Region {
        bar: w % 8,
        at: w / 8 * 8,
    }
}

fn msix_at(c: &[u8; 256], a: usize) -> MsixShape
    requires { Place a }
    ensures { result ≡ msix_at c.now a }
{
    let low = usize::from(c[a + 2]);
    let high = usize::from(c[a + 3]);
    let table = region_at(c, a + 4);
    let pending = region_at(c, a + 8);
    MsixShape {
        at: a,
        vectors: low + 256 * (high % 8) + 1,
        table,
        pending,
    }
}

fn msi_found(c: &[u8; 256], f: Found) -> MsiShape
    requires { Placed f }
    ensures { result ≡ msi_found c.now f }
{
    match f {
        Found::Once(a) | Found::Again(a, _) => msi_at(c, a),
        Found::Nowhere => MsiShape {
            at: 0,
            capable: 0,
            wide: false,
            masks: false,
            extended: false,
        },
    }
}

fn msix_found(c: &[u8; 256], f: Found) -> MsixShape
    requires { Placed f }
    ensures { result ≡ msix_found c.now f }
{
    match f {
        Found::Once(a) | Found::Again(a, _) => msix_at(c, a),
        Found::Nowhere => MsixShape {
            at: 0,
            vectors: 0,
            table: Region { bar: 0, at: 0 },
            pending: Region { bar: 0, at: 0 },
        },
    }
}

// What a broken list is taken to say.
const NOTHING: Listing = Listing {
    msi: Found::Nowhere,
    msix: Found::Nowhere,
};

// The first capability of each ID counts.
pub fn shape(c: &[u8; 256], listing: Option<Listing>) -> Shape
    requires { listing ≡ listing_of c.now }
    ensures { (result ≡ shape_of c.now) × Bounded result }
{
    let found = listing.unwrap_or(NOTHING);
    Shape {
        msi: msi_found(c, found.msi),
        msix: msix_found(c, found.msix),
    }
}
