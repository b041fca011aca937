// Soundness of one function: all but the wire.
ghost use Rattle.std.specs.Prelude.{◌≡◌, Bool, List, ℕ, ◌≤◌, ◌<◌, ◌^◌, ltb, length};
ghost use Rattle.model.specs.Shape.{msi_vectors, table_bytes, pending_bytes};
ghost use Rattle.model.specs.Fit.{Fit};
ghost use Rattle.model.specs.World.{function_of, endpoint_of};
ghost use Rattle.model.specs.Release.{owed_now};
ghost use Rattle.model.specs.Start.{start_refusal};
ghost use Rattle.model.specs.Sound.{given_of, waits_below, is_empty, sound_endpoint};
ghost use Rattle.registers.specs.Bounds.{MsiBounds};
ghost use Rattle.vectors.specs.Given.{Profiled};
ghost use Rattle.release.specs.Owed.{Lent};
ghost use Rattle.endpoint.specs.Parts.{each_of, profile_or_shape, Checked};

use model::{Function, Mode, Profile, Shape};

// No MSI waiting bit at or above 2^Capable, and none where there is no MSI.
fn msi_below(waiting: u32, s: Shape) -> bool
    requires { s.msi.capable ≤ 5 }
    ensures { result ≡ ltb waiting (2 ^ msi_vectors s) }
{
    if s.msi.at == 0 {
        return waiting == 0;
    }
    let count = 1u64 << s.msi.capable;
    (waiting as u64) < 1u64 << count
}

fn waits_below(f: &Function, s: Shape, pending: &[u8]) -> bool
    requires { (s.msi.capable ≤ 5) × (length pending.now ≡ pending_bytes s) }
    ensures { (c t : List ℕ) → each_of c f.now.waiting (λ g. result ≡ waits_below s (endpoint_of g t pending.now)) }
{
    if !msi_below(f.waiting, s) {
        return false;
    }
    release::pending::none_beyond(pending, s.msix.vectors)
}

// No open vector waits.
fn nothing_owed(f: &Function, k: Profile, table: &[u8], pending: &[u8]) -> bool
    requires { Profiled f.now.config k × Lent table.now pending.now × (length table.now ≡ table_bytes k.shape) }
    ensures { each_of f.now.config f.now.waiting (λ g. result ≡ is_empty (owed_now k.shape (endpoint_of g table.now pending.now))) }
{
    match k.mode {
        Mode::Pin => true,
        Mode::Msi => crate::sweep::msi_owed(f, k.shape, k.form) == 0,
        Mode::Msix => {
            if vectors::msix::msix_enabled(&f.config, k.shape) {
                return release::msix::none_owed(table, pending);
            }
            true
        }
    }
}

// What is left to check of a function that a start accepts.
fn is_clean(f: &Function, k: Profile, table: &[u8], pending: &[u8]) -> bool
    requires { MsiBounds k.shape × Fit k.shape (length table.now) (length pending.now) × Profiled f.now.config k }
    ensures { each_of f.now.config f.now.waiting
        (λ g. start_refusal (given_of (endpoint_of g table.now pending.now)) ≡ 0
        → result ≡ sound_endpoint k.shape (endpoint_of g table.now pending.now)) }
{
    let s = k.shape;
    if !registers::clean::config_clean(&f.config, s, k.form) {
        return false;
    }
    if !registers::table::table_clean(table, s.msix.vectors) {
        return false;
    }
    if !waits_below(f, s, pending) {
        return false;
    }
    nothing_owed(f, k, table, pending)
}

// Of a sound function its profile, of any other its shape.
fn profile_or_shape(sound: bool, k: Profile) -> Result<Profile, Shape>
    ensures { result ≡ profile_or_shape sound k }
{
    if sound {
        return Ok(k);
    }
    Err(k.shape)
}

// What the configuration of a sound function with these lent buffers says, whatever its line is and the wire aside; of one that is not sound the shape.
pub fn check(f: &Function, table: &[u8], pending: &[u8]) -> Result<Profile, Shape>
    ensures { (line : Bool)
        → Checked (function_of f.now.config f.now.sizes f.now.events f.now.requester line f.now.waiting) table.now pending.now result }
{
    let start = layout::start::check_start(
        &f.config,
        &f.sizes,
        f.events,
        f.requester,
        table.len(),
        pending.len(),
    );
    let shape = start.shape;
    let Ok(()) = start.verdict else {
        return Err(shape);
    };
    let mode = vectors::mode::mode(&f.config, shape);
    let profile = Profile {
        shape,
        form: start.form,
        mode,
    };
    profile_or_shape(is_clean(f, profile, table, pending), profile)
}
