// A function with one part of it changed.
ghost use Rattle.std.specs.Prelude.{◌≡◌};
ghost use Rattle.model.specs.World.{function_of};

use model::Function;

pub fn with_config(f: Function, config: [u8; 256]) -> Function
    ensures { result ≡ function_of config f.sizes f.events f.requester f.line f.waiting }
{
    Function { config, ..f }
}

pub fn with_line(f: Function, line: bool) -> Function
    ensures { result ≡ function_of f.config f.sizes f.events f.requester line f.waiting }
{
    Function { line, ..f }
}

// Other MSI waiting bits.
pub fn with_waiting(f: Function, waiting: u32) -> Function
    ensures { result ≡ function_of f.config f.sizes f.events f.requester f.line waiting }
{
    Function { waiting, ..f }
}
