// Demand 3 of all that a host can lend: the types of what is lent give what the theorems ask for. Nothing is computed here but a
// length; the contracts are what counts.
ghost use Rattle.std.specs.Prelude.{◌≡◌, List, ℕ, ◌^◌, length};
ghost use Rattle.words.specs.Bytes.{Below};
ghost use Rattle.capi.specs.HostClaims.{Remembers, RemembersStill, ResumesBytes};

use snapshot::typed::lent_bytes;

fn count(words: &[u32]) -> usize
    ensures { result ≡ length words.now }
{
    words.len()
}

pub fn lent_words(words: &[u32]) -> usize
    ensures { (result ≡ length words.now) × Below (256 ^ 4) words.now }
{
    count(words)
}

// After a start with this configuration and these sizes that returns 0, every list of calls leaves the registers and the waiting
// bits of its history in the bytes that the host holds.
pub fn host_history(config: &[u8], sizes: &[u32]) -> usize
    ensures remembers { (result ≡ length config.now)
        × ((card table pending : List ℕ) (events requester : ℕ)
        → Remembers card table pending config.now sizes.now events requester) }
    ensures still { (card table pending : List ℕ) (events requester : ℕ)
        → RemembersStill card table pending config.now sizes.now events requester }
{
    lent_words(sizes);
    lent_bytes(config)
}

// After a save of the card in these bytes that returns 0, and whatever is called then, a restore of what was saved gives every
// byte back.
pub fn host_resumes(card: &[u8]) -> usize
    ensures { (result ≡ length card.now) × ((table pending : List ℕ) → ResumesBytes card.now table pending) }
{
    lent_bytes(card)
}
