// What a host in C asks without a call: each is the function of `capi_query` under its name for C.
#![tactic(auto)]

ghost use Rattle.capi_query.specs.Fields.{fields, first_fields};
ghost use Rattle.capi_query.specs.Lengths.{config_lengths, image_lengths, lengths};
ghost use Rattle.std.specs.Prelude.{◌≡◌};

#[unsafe(no_mangle)]
pub extern "C" fn musgarento_config_lengths(
    config: &[u8],
    vectors: &mut usize,
    table_len: &mut usize,
    pending_len: &mut usize,
) -> u8
    ensures { lengths result vectors.new table_len.new pending_len.new ≡ config_lengths config.now }
{
    capi_query::lengths::musgarento_config_lengths(config, vectors, table_len, pending_len)
}

#[unsafe(no_mangle)]
pub extern "C" fn musgarento_image_lengths(
    image: &[u8],
    vectors: &mut usize,
    table_len: &mut usize,
    pending_len: &mut usize,
) -> u8
    ensures { lengths result vectors.new table_len.new pending_len.new ≡ image_lengths image.now }
{
    capi_query::lengths::musgarento_image_lengths(image, vectors, table_len, pending_len)
}

#[unsafe(no_mangle)]
pub extern "C" fn musgarento_packet(
    packets: &[u8],
    count: &mut usize,
    kind: &mut u8,
    requester: &mut u16,
    address: &mut u64,
    value: &mut u32,
    pin: &mut u8,
    level: &mut u8,
) -> u8
    ensures { fields result count.new kind.new requester.new address.new value.new pin.new level.new
        ≡ first_fields packets.now }
{
    capi_query::packets::musgarento_packet(
        packets, count, kind, requester, address, value, pin, level,
    )
}
