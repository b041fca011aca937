ghost use Rattle.std.specs.Prelude.{◌≡◌, not, ◌+◌, ◌-◌, ◌*◌, ◌/◌, length};
ghost use Rattle.words.specs.Lists.{all, count};
ghost use Rattle.model.specs.Vectors.{pending_bit};

// Every bit of the pending array at or above n is 0: only the last word can have others.
pub fn none_beyond(pending: &[u8], n: usize) -> bool
    requires { length pending.now ≡ 8 * ((n + 63) / 64) }
    ensures { result ≡ all (λ v. not (pending_bit pending.now v)) (count n (8 * length pending.now - n)) }
{
    let used = n % 64;
    if used == 0 {
        return true;
    }
    words::get::word64(pending, n / 64 * 8) >> used == 0
}
