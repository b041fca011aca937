// The open waiting vectors: the bytes that they send, and the sending.
ghost use Rattle.std.specs.Prelude.{◌≡◌, List, ℕ, ◌≤◌, length};
ghost use Rattle.model.specs.Shape.{form_of, table_bytes};
ghost use Rattle.model.specs.Fit.{FitShape};
ghost use Rattle.model.specs.World.{endpoint_of};
ghost use Rattle.model.specs.Vectors.{owed};
ghost use Rattle.model.specs.Release.{sweep_bytes, swept, bytes_for, swept_for};
ghost use Rattle.model.specs.Ready.{Ready};
ghost use Rattle.vectors.specs.Given.{InForce, Profiled};
ghost use Rattle.release.specs.Owed.{set_bits, Lent};
ghost use Rattle.endpoint.specs.Parts.{each_of};
ghost use Rattle.endpoint.specs.Sweeps.{Swept};

use model::{Form, Function, Mode, Profile, Shape};

// MSI's waiting bits after the sending, and how many bytes were sent.
#[derive(Clone, Copy)]
pub struct Sent {
    pub waiting: u32,
    pub count: usize,
}

// MSI is in force. Its open waiting vectors, a bit for each.
pub fn msi_owed(f: &Function, s: Shape, form: Form) -> u32
    requires { FitShape s × (form ≡ form_of s) × InForce Mode.Msi s f.now.config }
    ensures { each_of f.now.config f.now.waiting (λ g. (t p : List ℕ) → owed Mode.Msi s (endpoint_of g t p) ≡ set_bits 32 result) }
{
    vectors::msi::msi_open(&f.config, s, form) & f.waiting
}

// MSI and MSI-X stay two functions each: their bodies share no call, MSI's owed vectors being a word and MSI-X's an array.
fn msi_size(f: &Function, k: Profile) -> usize
    requires { Profiled f.now.config k × (k.mode ≡ Mode.Msi) }
    ensures { (t p : List ℕ) → result ≡ length (bytes_for Mode.Msi k.shape (endpoint_of f.now t p)) }
{
    let owed = msi_owed(f, k.shape, k.form);
    let base = vectors::message::msi_base(&f.config, k.shape, k.form);
    release::msi::msi_size(owed, base.upper)
}

fn msix_size(f: &Function, s: Shape, table: &[u8], pending: &[u8]) -> usize
    requires { FitShape s × Lent table.now pending.now × (length table.now ≡ table_bytes s) × InForce Mode.Msix s f.now.config }
    ensures { result ≡ length (bytes_for Mode.Msix s (endpoint_of f.now table.now pending.now)) }
{
    if vectors::msix::msix_enabled(&f.config, s) {
        return release::msix::msix_size(table, pending);
    }
    0
}

// The bytes that the open waiting vectors send.
pub fn owed_size(f: &Function, k: Profile, table: &[u8], pending: &[u8]) -> usize
    requires { Ready k.shape (endpoint_of f.now table.now pending.now) × Profiled f.now.config k }
    ensures { result ≡ length (sweep_bytes k.shape (endpoint_of f.now table.now pending.now)) }
{
    match k.mode {
        Mode::Pin => 0,
        Mode::Msi => msi_size(f, k),
        Mode::Msix => msix_size(f, k.shape, table, pending),
    }
}

fn msi_send(f: &Function, k: Profile, out: &mut [u8]) -> Sent
    requires { Profiled f.now.config k × (k.mode ≡ Mode.Msi) × ((t p : List ℕ) → length (bytes_for Mode.Msi k.shape (endpoint_of f.now t p)) ≤ length out.old) }
    ensures { (t p : List ℕ)
        → Swept (bytes_for Mode.Msi k.shape (endpoint_of f.now t p)) (endpoint_of f.now t p) (swept_for Mode.Msi k.shape (endpoint_of f.now t p)) out.old result p
        out.new }
{
    let owed = msi_owed(f, k.shape, k.form);
    let base = vectors::message::msi_base(&f.config, k.shape, k.form);
    let count = release::msi::msi_send(out, f.requester, base, owed);
    Sent {
        waiting: !owed & f.waiting,
        count,
    }
}

fn msix_send(f: &Function, s: Shape, table: &[u8], pending: &mut [u8], out: &mut [u8]) -> Sent
    requires { FitShape s × Lent table.now pending.old × (length table.now ≡ table_bytes s) × InForce Mode.Msix s f.now.config
        × (length (bytes_for Mode.Msix s (endpoint_of f.now table.now pending.old)) ≤ length out.old) }
    ensures { Swept (bytes_for Mode.Msix s (endpoint_of f.now table.now pending.old))
        (endpoint_of f.now table.now pending.old) (swept_for Mode.Msix s (endpoint_of f.now table.now pending.old))
        out.old result pending.new out.new }
{
    let waiting = f.waiting;
    if vectors::msix::msix_enabled(&f.config, s) {
        let count = release::msix::msix_send(out, table, pending, f.requester);
        return Sent { waiting, count };
    }
    Sent { waiting, count: 0 }
}

// Sends the open waiting vectors, the lowest first, and clears their bits.
pub fn send_owed(f: &Function, k: Profile, table: &[u8], pending: &mut [u8], out: &mut [u8]) -> Sent
    requires { Ready k.shape (endpoint_of f.now table.now pending.old) × Profiled f.now.config k
        × (length (sweep_bytes k.shape (endpoint_of f.now table.now pending.old)) ≤ length out.old) }
    ensures { Swept (sweep_bytes k.shape (endpoint_of f.now table.now pending.old))
        (endpoint_of f.now table.now pending.old) (swept k.shape (endpoint_of f.now table.now pending.old)) out.old result
        pending.new out.new }
{
    match k.mode {
        Mode::Pin => Sent {
            waiting: f.waiting,
            count: 0,
        },
        Mode::Msi => msi_send(f, k, out),
        Mode::Msix => msix_send(f, k.shape, table, pending, out),
    }
}
