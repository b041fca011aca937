// The wire packets of changed upstream wires.
ghost use Rattle.std.specs.Prelude.{◌≡◌, ℕ, ◌≤◌, length};
ghost use Rattle.words.specs.Writers.{Wrote};
ghost use Rattle.switch.specs.Switches.{wire_of};
ghost use Rattle.switch.specs.Calls.{change_of, changes};
ghost use Rattle.switch.specs.Outcomes.{after, changed_to};

use crate::Switch;
use crate::join::upstream;
use crate::outcome::{Outcome, accepted, refuse};
use model::refusal::Refusal;

// The bytes of one wire's packet: none if the level stays.
fn change_size(before: bool, after: bool) -> usize
    ensures { (result ≤ 16) × ((requester pin : ℕ) → result ≡ length (change_of requester (λ q. before) (λ q. after) pin)) }
{
    if before == after { 0 } else { 16 }
}

// The bytes of the packets of four upstream wires.
pub fn changes_size(before: [bool; 4], after: [bool; 4]) -> usize
    ensures { (requester : ℕ) → result ≡ length (changes requester (wire_of before) (wire_of after)) }
{
    let a = change_size(before[0], after[0]);
    let b = change_size(before[1], after[1]);
    let c = change_size(before[2], after[2]);
    let d = change_size(before[3], after[3]);
    a + b + c + d
}

// The packet of one wire, written to the start of the output; the requester's function part is 0.
fn put_change(out: &mut [u8], requester: u16, pin: u8, before: bool, after: bool) -> usize
    requires { (pin ≤ 4) × (length (change_of requester (λ q. before) (λ q. after) pin) ≤ length out.old) }
    ensures { Wrote (change_of requester (λ q. before) (λ q. after) pin) out.old result out.new }
{
    if before == after {
        return 0;
    }
    tlp::put_wire(out, requester / 8 * 8, pin, after)
}

// The packets of four upstream wires, in their order.
pub fn put_changes(out: &mut [u8], requester: u16, before: [bool; 4], after: [bool; 4]) -> usize
    requires { length (changes requester (wire_of before) (wire_of after)) ≤ length out.old }
    ensures { Wrote (changes requester (wire_of before) (wire_of after)) out.old result out.new }
{
    let mut at = 0;
    for q in 0..4 {
        at += put_change(
            &mut out[at..],
            requester,
            (q + 1) as u8,
            before[q],
            after[q],
        );
    }
    at
}

// The wires become those of another switch: 6 where the packets of the changes are longer than the output, else they are sent.
pub fn send_changes(s: Switch, next: Switch, out: &mut [u8]) -> Outcome
    ensures { after result out.new ≡ changed_to s next out.old }
{
    let before = upstream(s);
    let after = upstream(next);
    if out.len() < changes_size(before, after) {
        return refuse(s, Refusal::Room);
    }
    let count = put_changes(out, s.requester, before, after);
    accepted(next, count)
}
