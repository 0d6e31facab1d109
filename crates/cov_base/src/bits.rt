//! Bits in words, 64 in a word and the lowest first.
ghost use Rattle.std.specs.Prelude.{◌≡◌, ◌≢◌, ℕ, ◌/◌, ◌*◌, ◌^◌, ◌<◌, ◌||◌, length, true, count_by, replicate, vec_len};
ghost use Rattle.cov_base.specs.BitRow.{bit_of, row_of};

#[tactic(auto, using(crate::proofs::BitRows::bit_read))]
pub(crate) fn is_set(words: &[u64], i: usize) -> bool
    requires { i / 64 < length words.now }
    ensures { result ≡ bit_of words.now i }
{
    (words[i / 64] >> (i % 64)) & 1 == 1
}

#[tactic(auto, using(crate::proofs::BitRows::bit_set, crate::proofs::BitRows::bit_kept_by_set))]
pub(crate) fn set(words: &mut Vec<u64>, i: usize)
    requires { i / 64 < vec_len words.old }
    ensures len { vec_len words.new ≡ vec_len words.old }
    ensures here { bit_of words.new.items i ≡ true }
    ensures others { (k : ℕ) → k ≢ i → bit_of words.new.items k ≡ bit_of words.old.items k }
{
    words[i / 64] |= 1u64 << (i % 64);
}

/// Makes each bit 1 that is 1 in the other words.
#[tactic(auto, using(crate::proofs::BitRows::items_lent))]
pub(crate) fn join(words: &mut Vec<u64>, others: &[u64])
    requires { vec_len words.old ≡ length others.now }
    ensures len { vec_len words.new ≡ vec_len words.old }
    ensures joined { (k : ℕ) → k / 64 < vec_len words.old →
        bit_of words.new.items k ≡ (bit_of words.old.items k || bit_of others.now k) }
{
    let words = words.as_mut_slice();
    for at in 0..others.len() {
        words[at] |= others[at];
    }
}

pub(crate) fn zero(words: &mut Vec<u64>)
    ensures len { vec_len words.new ≡ vec_len words.old }
    ensures zeros { words.new.items ≡ replicate (vec_len words.old) 0 }
{
    for word in words.iter_mut() {
        *word = 0;
    }
}

/// How many of the first `bits` bits are 1.
#[tactic(auto, using(crate::proofs::BitRows::ones_of_row, crate::proofs::BitRows::ones_within))]
pub(crate) fn count_ones(words: &[u64], bits: u32) -> u32
    requires { bits < 64 * length words.now }
    ensures { result ≡ count_by (λ bit. bit) (row_of words.now bits) }
{
    let whole = bits as usize / 64;
    let last = words[whole] % (1 << (bits % 64));
    ones_in(&words[..whole]) + last.count_ones()
}

/// How many bits are 1.
fn ones_in(words: &[u64]) -> u32
    requires { 64 * length words.now < 2 ^ 32 }
    ensures { result ≡ count_by (λ bit. bit) (row_of words.now (64 * length words.now)) }
{
    let mut n = 0;
    for word in words {
        n += word.count_ones();
    }
    n
}
