// The functions of the interface.
ghost use Rattle.std.specs.Prelude.{◌≡◌, []};
ghost use Rattle.switch.specs.Calls.{pass, down};
ghost use Rattle.capi_switch.specs.Crossing.{handed, crossed, started};

use crate::bytes::{hand_back, is_switch, put_switch, switch_of};
use model::refusal::Refusal;

pub fn musgarento_switch_start(state: &mut [u8], requester: u64) -> u8
    ensures { handed result state.new [] 0 ≡ started state.old requester }
{
    if state.len() != 10 {
        return Refusal::Lengths as u8;
    }
    if 65535 < requester {
        return Refusal::Lengths as u8;
    }
    let fresh = switch::state::start(requester as u16);
    put_switch(state, fresh);
    0
}

pub fn musgarento_switch_packet(
    state: &mut [u8],
    port: u64,
    packet: &[u8],
    out: &mut [u8],
    count: &mut usize,
) -> u8
    ensures { handed result state.new out.new count.new
        ≡ crossed state.old (pass port packet.now out.old) }
{
    *count = 0;
    if !is_switch(state) {
        return Refusal::Lengths as u8;
    }
    let held = switch_of(state);
    let outcome = switch::packet::pass(held, port, packet, out);
    *count = outcome.count;
    let answer = outcome.answer;
    hand_back(state, outcome.switch, answer)
}

pub fn musgarento_switch_down(state: &mut [u8], port: u64, out: &mut [u8], count: &mut usize) -> u8
    ensures { handed result state.new out.new count.new
        ≡ crossed state.old (down port out.old) }
{
    *count = 0;
    if !is_switch(state) {
        return Refusal::Lengths as u8;
    }
    let held = switch_of(state);
    let outcome = switch::down::down(held, port, out);
    *count = outcome.count;
    let answer = outcome.answer;
    hand_back(state, outcome.switch, answer)
}
