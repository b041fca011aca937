// Soundness of a card with its lent buffers: its function, and the wire as it should be.
ghost use Rattle.std.specs.Prelude.{◌≡◌, List, ℕ};
ghost use Rattle.model.specs.Vectors.{command_bit};
ghost use Rattle.model.specs.Release.{pin_number};
ghost use Rattle.vectors.specs.Given.{regs};
ghost use Rattle.wire.specs.Wires as Wires;
ghost use Rattle.card.specs.Running.{Checks};

use model::{Card, Mode, Profile};
use wire::Wiring;

// What the configuration of a sound card says, and the small state of its wire.
#[derive(Clone, Copy)]
pub struct Found {
    pub profile: Profile,
    pub wiring: Wiring,
}

// The small state of the wire, with a mechanism in force.
fn wiring(card: &Card, mode: Mode) -> Wiring
    ensures { (t : List ℕ)
        → result ≡ Wires.wiring card.now.function.line card.now.wire mode (pin_number (regs card.now.function.config t))
        (command_bit (regs card.now.function.config t) 10) }
{
    Wiring {
        line: card.function.line,
        wire: card.wire,
        mode,
        pin: vectors::pin::pin_number(&card.function.config),
        disabled: vectors::mode::command_bit(&card.function.config, 10),
    }
}

// Refusal 1 of every call but start and restore is where nothing is found. What is worked out here once is handed to the call. Each call tests
// it by itself: one frame over a closure would have to lend table and pending array as the call that writes both.
pub fn check(card: &Card, table: &[u8], pending: &[u8]) -> Option<Found>
    ensures { Checks card.now table.now pending.now result }
{
    let Ok(profile) = endpoint::sound::check(&card.function, table, pending) else {
        return None;
    };
    let wiring = wiring(card, profile.mode);
    if card.wire == wiring.due() {
        return Some(Found { profile, wiring });
    }
    None
}
