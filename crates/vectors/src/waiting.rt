// Waiting bits: MSI's in a word, MSI-X's in the pending array.
ghost use Rattle.std.specs.Prelude.{◌≡◌, ◌/◌, ◌%◌, ◌<◌, ◌≤◌, length, set};
ghost use Rattle.words.specs.Bits.{bit};
ghost use Rattle.words.specs.Bytes.{byte};
ghost use Rattle.model.specs.World.{Endpoint, with_waiting};
ghost use Rattle.model.specs.Shape.{pending_bytes};
ghost use Rattle.model.specs.Vectors.{waits, vector_count};
ghost use Rattle.vectors.specs.Changes.{Changes, bit_change};

use model::{Mode, Shape, Vector};

fn msi_waits(waiting: u32, v: Vector) -> bool
    ensures { result ≡ bit waiting v.0 }
{
    let n = v.0 as usize;
    if 32 <= n {
        return false;
    }
    words::bits::word_bit(waiting, n)
}

fn msix_waits(pending: &[u8], v: Vector) -> bool
    ensures { result ≡ bit (byte pending.now (v.0 / 8)) (v.0 % 8) }
{
    let n = v.0 as usize;
    let i = n / 8;
    if pending.len() <= i {
        return false;
    }
    words::bits::bit(pending[i], n % 8)
}

// Vector v of the mechanism m waits, in a function with these waiting bits.
pub fn waits(m: Mode, waiting: u32, pending: &[u8], v: Vector) -> bool
    ensures { (u : Endpoint) → result ≡ waits m (with_waiting u waiting pending.now) v.0 }
{
    match m {
        Mode::Pin => false,
        Mode::Msi => msi_waits(waiting, v),
        Mode::Msix => msix_waits(pending, v),
    }
}

// The waiting bit of MSI vector v set or cleared.
pub fn change_waiting<const SET: bool>(waiting: u32, v: Vector) -> u32
    requires { v.0 < 32 }
    ensures { result ≡ bit_change SET waiting v.0 }
{
    let one: u32 = 1 << v.0;
    if SET { one | waiting } else { !one & waiting }
}

// The pending bit of MSI-X vector v set or cleared.
pub fn change_pending<const SET: bool>(pending: &mut [u8], v: Vector)
    requires { v.0 / 8 < length pending.old }
    ensures { pending.new ≡ set pending.old (v.0 / 8) (bit_change SET (byte pending.old (v.0 / 8)) (v.0 % 8)) }
{
    let n = v.0 as usize;
    let i = n / 8;
    let one: u8 = 1 << (n % 8);
    if SET {
        pending[i] = one | pending[i];
    } else {
        pending[i] = !one & pending[i];
    }
}

// The waiting bit of vector v of the mechanism m set or cleared, MSI's in the word that is given and handed back.
pub fn change_bit<const SET: bool>(
    m: Mode,
    s: Shape,
    waiting: u32,
    pending: &mut [u8],
    v: Vector,
) -> u32
    requires { (s.msi.capable ≤ 5) × (length pending.old ≡ pending_bytes s) × (v.0 < vector_count m s) }
    ensures { Changes (bit_change SET) m waiting pending.old v.0 result pending.new }
{
    match m {
        Mode::Pin => waiting,
        Mode::Msi => change_waiting::<SET>(waiting, v),
        Mode::Msix => {
            change_pending::<SET>(pending, v);
            waiting
        }
    }
}
