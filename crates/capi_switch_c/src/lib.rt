// The three calls of a switch for C: each is the function of `capi_switch` under its name for C.
#![tactic(auto)]

ghost use Rattle.capi_switch.specs.Crossing.{crossed, handed, started};
ghost use Rattle.std.specs.Prelude.{[], ◌≡◌};
ghost use Rattle.switch.specs.Calls.{down, pass};

#[unsafe(no_mangle)]
pub extern "C" fn musgarento_switch_start(state: &mut [u8], requester: u64) -> u8
    ensures { handed result state.new [] 0 ≡ started state.old requester }
{
    capi_switch::calls::musgarento_switch_start(state, requester)
}

#[unsafe(no_mangle)]
pub extern "C" fn musgarento_switch_packet(
    state: &mut [u8],
    port: u64,
    packet: &[u8],
    out: &mut [u8],
    count: &mut usize,
) -> u8
    ensures { handed result state.new out.new count.new
        ≡ crossed state.old (pass port packet.now out.old) }
{
    capi_switch::calls::musgarento_switch_packet(state, port, packet, out, count)
}

#[unsafe(no_mangle)]
pub extern "C" fn musgarento_switch_down(
    state: &mut [u8],
    port: u64,
    out: &mut [u8],
    count: &mut usize,
) -> u8
    ensures { handed result state.new out.new count.new
        ≡ crossed state.old (down port out.old) }
{
    capi_switch::calls::musgarento_switch_down(state, port, out, count)
}
