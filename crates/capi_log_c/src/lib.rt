// A log played, begun and recorded, for C: each is the function of `capi_log` under its name for C.
#![tactic(auto)]

ghost use Rattle.call_log.specs.Logs.{header};
ghost use Rattle.call_log.specs.Recorder.{appended};
ghost use Rattle.capi_log.specs.Crossing.{handed, played};
ghost use Rattle.capi_log.specs.Recording.{record_of, wrote, wrote_by, wrote_record};
ghost use Rattle.std.specs.Prelude.{◌≡◌};

#[unsafe(no_mangle)]
pub extern "C" fn musgarento_play(
    card: &mut [u8],
    table: &mut [u8],
    pending: &mut [u8],
    player: &mut [u8],
    log: &[u8],
    out: &mut [u8],
    taken: &mut usize,
    ended: &mut u8,
    refusal: &mut u8,
    answer: &mut u8,
    count: &mut usize,
) -> u8
    ensures { handed result card.new table.new pending.new player.new out.new
        taken.new ended.new refusal.new answer.new count.new
        ≡ played card.old table.old pending.old player.old log.now out.old }
{
    capi_log::playing::musgarento_play(
        card, table, pending, player, log, out, taken, ended, refusal, answer, count,
    )
}

#[unsafe(no_mangle)]
pub extern "C" fn musgarento_log_begin(out: &mut [u8], count: &mut usize) -> u8
    ensures { wrote result out.new count.new ≡ wrote_by (appended header out.old) }
{
    capi_log::recording::musgarento_log_begin(out, count)
}

#[unsafe(no_mangle)]
pub extern "C" fn musgarento_log_record(
    kind: u64,
    bar: u64,
    offset: u64,
    width: u64,
    value: u64,
    refusal: u8,
    out: &mut [u8],
    count: &mut usize,
) -> u8
    ensures { wrote result out.new count.new ≡ wrote_record (record_of kind bar offset width value) refusal out.old }
{
    capi_log::recording::musgarento_log_record(kind, bar, offset, width, value, refusal, out, count)
}
