// The function that a start gives, and a reset, with its lent buffers.
ghost use Rattle.std.specs.Prelude.{◌≡◌, length};
ghost use Rattle.model.specs.Fit.{Fit};
ghost use Rattle.model.specs.Shape.{form_of, shape_of};
ghost use Rattle.model.specs.Start.{started};
ghost use Rattle.model.specs.World.{endpoint_of};

use model::{Form, Function, Shape};

// Writable bits 0 but for the mask bits of table entries, line low, nothing waiting.
pub fn started(
    config: [u8; 256],
    sizes: [u32; 6],
    events: u16,
    requester: u16,
    s: Shape,
    f: Form,
    table: &mut [u8],
    pending: &mut [u8],
) -> Function
    requires { (s ≡ shape_of config) × Fit s (length table.old) (length pending.old) × (f ≡ form_of s) }
    ensures { endpoint_of result table.new pending.new ≡ started config sizes events requester }
{
    let fixed = registers::start::started_config(&config, s, f);
    let n = s.msix.vectors;
    registers::table::started_table(table, n);
    words::put::fill(pending, 0);
    Function {
        config: fixed,
        sizes,
        events,
        requester,
        line: false,
        waiting: 0,
    }
}
