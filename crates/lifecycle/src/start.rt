// Starting a card.
ghost use Rattle.std.specs.Prelude.{◌≡◌, [], length};
ghost use Rattle.model.specs.Start.{given};
ghost use Rattle.model.specs.Calls.{start_of};
ghost use Rattle.model.specs.World.{endpoint_of, zero_function};
ghost use Rattle.card.specs.Outcomes.{after, zero_card};

use crate::started::started;
use card::outcome::{Outcome, accepted, refuse};
use model::{Answer, Card, Function};

// The card of a refused start.
fn zero_card() -> Card
    ensures { result ≡ zero_card }
{
    let config = [0; 256];
    let sizes = [0; 6];
    let function = Function {
        config,
        sizes,
        events: 0,
        requester: 0,
        line: false,
        waiting: 0,
    };
    Card {
        function,
        wire: false,
    }
}

// Starts a card on two lent buffers.
pub fn start(
    config: [u8; 256],
    sizes: [u32; 6],
    events: u16,
    requester: u16,
    table: &mut [u8],
    pending: &mut [u8],
) -> Outcome
    ensures { after result table.new pending.new []
        ≡ start_of (endpoint_of zero_function table.old pending.old)
        (given config sizes events requester (length table.old) (length pending.old)) }
{
    let checked = layout::start::check_start(
        &config,
        &sizes,
        events,
        requester,
        table.len(),
        pending.len(),
    );
    if let Err(why) = checked.verdict {
        return refuse(zero_card(), why);
    }
    let s = checked.shape;
    let form = checked.form;
    let function = started(config, sizes, events, requester, s, form, table, pending);
    accepted(
        Card {
            function,
            wire: false,
        },
        Answer::Done,
        0,
    )
}
