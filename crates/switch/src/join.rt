// The wires of the ports as an eight by four array, mapped to upstream pins and joined into four upstream wires.
ghost use Rattle.std.specs.Prelude.{◌≡◌, ◌+◌, ◌<◌};
ghost use Rattle.switch.specs.Joined.{levels_of, turned_by, mapped_of, active_in, joined_of, upstream_of};

use crate::Switch;
use std::array;

// The levels of all wires, by ports and card pins.
pub fn levels(s: Switch) -> [[bool; 4]; 8]
    ensures { result ≡ levels_of s }
{
    let mut rows = [[false; 4]; 8];
    for (k, port) in s.ports.iter().enumerate() {
        rows[k] = port.wires;
    }
    rows
}

// The wires of a port by upstream pins: the one at place q stood at place q - port, modulo 4.
fn turned(wires: [bool; 4], port: usize) -> [bool; 4]
    requires { port < 8 }
    ensures { result ≡ turned_by port wires }
{
    array::from_fn(|q| wires[(8 + q - port) % 4])
}

// The levels of all wires, by ports and upstream pins.
pub fn mapped(l: [[bool; 4]; 8]) -> [[bool; 4]; 8]
    ensures { result ≡ mapped_of l }
{
    let mut rows = [[false; 4]; 8];
    for (k, wires) in l.iter().enumerate() {
        rows[k] = turned(*wires, k);
    }
    rows
}

// Whether a port drives the upstream pin at place q. Written out for speed: with `m.iter().any(..)` the calls of a switch took a quarter longer.
fn active(m: [[bool; 4]; 8], q: usize) -> bool
    requires { q < 4 }
    ensures { result ≡ active_in m (q + 1) }
{
    m[0][q] | m[1][q] | m[2][q] | m[3][q] | m[4][q] | m[5][q] | m[6][q] | m[7][q]
}

// The upstream wires: each is active while any port's mapped wire is.
pub fn joined(m: [[bool; 4]; 8]) -> [bool; 4]
    ensures { result ≡ joined_of m }
{
    array::from_fn(|q| active(m, q))
}

// The upstream wires of a switch.
pub fn upstream(s: Switch) -> [bool; 4]
    ensures { result ≡ upstream_of s }
{
    joined(mapped(levels(s)))
}
