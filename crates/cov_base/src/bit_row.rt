ghost use Rattle.std.specs.Prelude.{◌≡◌, ◌<◌, true, false, length, replicate, slice_index_or, slice_set, IfOk, count_by};
ghost use Rattle.cov_base.specs.BitRow.{either};

use crate::bits::{count_ones, is_set, join, set, zero};
use crate::memory::Memory;
use std::alloc::Global;
use std::marker::Model;

#[cfg(test)]
mod tests;

/// A row of truths, 64 in a word, which contracts see as a list. Its number of bits stays.
#[derive(Drop)]
pub struct BitRow {
    words: Vec<u64>,
    bits: u32,
}

impl Model for BitRow {
    ghost use Rattle.std.specs.Prelude.{List, Bool, ◌≡◌, ◌/◌, ◌+◌, length};
    ghost use Rattle.cov_base.specs.BitRow.{row_of};

    ghost Value = { List Bool };

    ghost view = { λ row. row_of row.words.items row.bits };

    ghost invariant = { λ row. length row.words.items ≡ row.bits / 64 + 1 };
}

impl BitRow {
    /// A row of this many bits, all false, or `Memory` for want of it. No other call takes memory.
    /// The cost is linear in the words.
    #[tactic(auto, using(crate::proofs::BitRows::row_of_zeros))]
    pub fn new(alloc: Global, bits: u32) -> Result<BitRow, Memory>
        ensures { IfOk result (λ row. row ≡ replicate bits false) }
    {
        let words = vec![in alloc; 0u64; bits as usize / 64 + 1]?;
        Ok(BitRow { words, bits })
    }

    /// Whether bit `i` is true, in constant time.
    #[tactic(auto, using(crate::proofs::BitRows::row_length, crate::proofs::BitRows::bit_of_row))]
    pub fn get(&self, i: u32) -> bool
        requires { i < length self.now }
        ensures { result ≡ slice_index_or self.now i false }
    {
        is_set(self.words.as_slice(), i as usize)
    }

    /// Makes bit `i` true, in constant time.
    #[tactic(auto, using(crate::proofs::BitRows::row_length, crate::proofs::BitRows::row_after_set))]
    pub fn set(&mut self, i: u32)
        requires { i < length self.old }
        ensures { self.new ≡ slice_set self.old i true }
    {
        set(&mut self.words, i as usize);
    }

    /// Makes each bit true that is true in another row of as many bits. The cost is linear in the
    /// words.
    #[tactic(auto, using(crate::proofs::BitRows::row_length, crate::proofs::BitRows::row_after_join))]
    pub fn or_with(&mut self, other: &BitRow)
        requires { length self.old ≡ length other.now }
        ensures { self.new ≡ either self.old other.now }
    {
        join(&mut self.words, other.words.as_slice());
    }

    /// Makes each bit false. The cost is linear in the words.
    #[tactic(auto, using(crate::proofs::BitRows::row_length, crate::proofs::BitRows::row_of_zeros))]
    pub fn clear(&mut self)
        ensures { self.new ≡ replicate (length self.old) false }
    {
        zero(&mut self.words);
    }

    /// The number of true bits. The cost is linear in the words.
    pub fn count(&self) -> u32
        ensures { result ≡ count_by (λ bit. bit) self.now }
    {
        count_ones(self.words.as_slice(), self.bits)
    }
}
