// The hash of a list of numbers, one step for each. What uses it depends on this alone: equal lists have equal hashes.
#![tactic(auto)]

ghost use Rattle.std.specs.Prelude.{◌≡◌};
ghost use Rattle.hash.specs.Hash.{mix_of};

// The hash of no number.
pub const SEED: u64 = 88172645463325252;

// The low half of a hash is below this, and its high half is the carry.
const WORD: u64 = 4294967296;

const MULTIPLIER: u64 = 4294957665;

// The hash with one number more: a multiply with carry, which never wraps.
#[tactic(auto, using(crate::proofs::Carry::high, crate::proofs::Carry::low, crate::proofs::Carry::carry, crate::proofs::Carry::carry_more))]
pub fn mix(h: u64, x: u32) -> u64
    ensures { result ≡ mix_of h x }
{
    (h % WORD) * MULTIPLIER + h / WORD + u64::from(x)
}
