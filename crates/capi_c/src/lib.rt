// The eleven calls for C: each is the function of `capi` under its name for C.
#![tactic(auto)]

ghost use Rattle.capi.specs.Crossing.{crossed, handed};
ghost use Rattle.model.specs.Calls.{bar_read, bar_write, call, config_read, config_write, event, line, reset, restore, save, start, withdraw};
ghost use Rattle.std.specs.Prelude.{[], eqb, not, ◌≡◌};

#[unsafe(no_mangle)]
pub extern "C" fn musgarento_event(
    card: &mut [u8],
    table: &[u8],
    pending: &mut [u8],
    number: u64,
    out: &mut [u8],
    answer: &mut u8,
    count: &mut usize,
) -> u8
    ensures { handed result card.new table.now pending.new out.new 0 answer.new count.new
        ≡ crossed card.old table.now pending.old (call (event number out.old)) }
{
    capi::events::musgarento_event(card, table, pending, number, out, answer, count)
}

#[unsafe(no_mangle)]
pub extern "C" fn musgarento_line(
    card: &mut [u8],
    table: &[u8],
    pending: &[u8],
    level: u64,
    out: &mut [u8],
    count: &mut usize,
) -> u8
    ensures { handed result card.new table.now pending.now out.new 0 0 count.new
        ≡ crossed card.old table.now pending.now (call (line (not (eqb level 0)) out.old)) }
{
    capi::events::musgarento_line(card, table, pending, level, out, count)
}

#[unsafe(no_mangle)]
pub extern "C" fn musgarento_save(
    card: &[u8],
    table: &[u8],
    pending: &[u8],
    out: &mut [u8],
    count: &mut usize,
) -> u8
    ensures { handed result card.now table.now pending.now out.new 0 0 count.new
        ≡ crossed card.now table.now pending.now (call (save out.old)) }
{
    capi::images::musgarento_save(card, table, pending, out, count)
}

#[unsafe(no_mangle)]
pub extern "C" fn musgarento_restore(
    card: &mut [u8],
    table: &mut [u8],
    pending: &mut [u8],
    image: &[u8],
) -> u8
    ensures { handed result card.new table.new pending.new [] 0 0 0
        ≡ crossed card.old table.old pending.old (restore image.now) }
{
    capi::images::musgarento_restore(card, table, pending, image)
}

#[unsafe(no_mangle)]
pub extern "C" fn musgarento_config_read(
    card: &[u8],
    table: &[u8],
    pending: &[u8],
    offset: u64,
    width: u64,
    value: &mut u32,
) -> u8
    ensures { handed result card.now table.now pending.now [] value.new 0 0
        ≡ crossed card.now table.now pending.now (call (config_read offset width)) }
{
    capi::reads::musgarento_config_read(card, table, pending, offset, width, value)
}

#[unsafe(no_mangle)]
pub extern "C" fn musgarento_bar_read(
    card: &[u8],
    table: &[u8],
    pending: &[u8],
    bar: u64,
    offset: u64,
    width: u64,
    value: &mut u64,
) -> u8
    ensures { handed result card.now table.now pending.now [] value.new 0 0
        ≡ crossed card.now table.now pending.now (call (bar_read bar offset width)) }
{
    capi::reads::musgarento_bar_read(card, table, pending, bar, offset, width, value)
}

#[unsafe(no_mangle)]
pub extern "C" fn musgarento_start(
    card: &mut [u8],
    config: &[u8],
    sizes: &[u32],
    events: u64,
    requester: u64,
    table: &mut [u8],
    pending: &mut [u8],
) -> u8
    ensures { handed result card.new table.new pending.new [] 0 0 0
        ≡ crossed card.old table.old pending.old (start config.now sizes.now events requester) }
{
    capi::starts::musgarento_start(card, config, sizes, events, requester, table, pending)
}

#[unsafe(no_mangle)]
pub extern "C" fn musgarento_reset(
    card: &mut [u8],
    table: &mut [u8],
    pending: &mut [u8],
    out: &mut [u8],
    count: &mut usize,
) -> u8
    ensures { handed result card.new table.new pending.new out.new 0 0 count.new
        ≡ crossed card.old table.old pending.old (call (reset out.old)) }
{
    capi::starts::musgarento_reset(card, table, pending, out, count)
}

#[unsafe(no_mangle)]
pub extern "C" fn musgarento_withdraw(
    card: &mut [u8],
    table: &[u8],
    pending: &mut [u8],
    vector: u64,
    was: &mut u8,
) -> u8
    ensures { handed result card.new table.now pending.new [] was.new 0 0
        ≡ crossed card.old table.now pending.old (call (withdraw vector)) }
{
    capi::withdrawals::musgarento_withdraw(card, table, pending, vector, was)
}

#[unsafe(no_mangle)]
pub extern "C" fn musgarento_config_write(
    card: &mut [u8],
    table: &[u8],
    pending: &mut [u8],
    offset: u64,
    width: u64,
    value: u32,
    out: &mut [u8],
    count: &mut usize,
) -> u8
    ensures { handed result card.new table.now pending.new out.new 0 0 count.new
        ≡ crossed card.old table.now pending.old (call (config_write offset width value out.old)) }
{
    capi::writes::musgarento_config_write(card, table, pending, offset, width, value, out, count)
}

#[unsafe(no_mangle)]
pub extern "C" fn musgarento_bar_write(
    card: &mut [u8],
    table: &mut [u8],
    pending: &mut [u8],
    bar: u64,
    offset: u64,
    width: u64,
    value: u64,
    out: &mut [u8],
    count: &mut usize,
) -> u8
    ensures { handed result card.new table.new pending.new out.new 0 0 count.new
        ≡ crossed card.old table.old pending.old (call (bar_write bar offset width value out.old)) }
{
    capi::writes::musgarento_bar_write(card, table, pending, bar, offset, width, value, out, count)
}
