ghost use Rattle.std.specs.Prelude.{◌≡◌, ℕ, ◌+◌, ◌-◌, ◌*◌, ◌^◌, ◌<◌, Bool, false};
ghost use Rattle.std.specs.List.{range_with_len};
ghost use Rattle.algebra.specs.Kinds.{functions, keeps_nothing, block_meaning, lanes, taken, word_bit};
ghost use Rattle.algebra.specs.Made.{Made, Stretch, Samples};
ghost use Rattle.std.proofs.Common.{rules, arith};

use super::Block;
use crate::{ChainAlgebra, Declined, MOST_INPUTS, Sample, SignalAlgebra, setting_count};
use text::fault::{Fault, Reason};

// The settings of a word, and how many inputs have so many.
const WORD_SETTINGS: u32 = 64;

const WORD_INPUTS: u32 = 6;

// The word whose bit j is bit p of j.
fn pattern(p: u32) -> u64
    requires { p < 6 }
    ensures { (j : ℕ) → j < 64 → word_bit result j ≡ word_bit j p }
{
    match p {
        0 => 0xAAAA_AAAA_AAAA_AAAA,
        1 => 0xCCCC_CCCC_CCCC_CCCC,
        2 => 0xF0F0_F0F0_F0F0_F0F0,
        3 => 0xFF00_FF00_FF00_FF00,
        4 => 0xFFFF_0000_FFFF_0000,
        _ => 0xFFFF_FFFF_0000_0000,
    }
}

impl Block {
    // The number of settings that are listed.
    fn lanes(&self) -> u32
        ensures { result ≡ lanes self.now.inputs }
    {
        if self.inputs < WORD_INPUTS {
            setting_count(self.inputs)
        } else {
            WORD_SETTINGS
        }
    }

    // The word with the bit of each listed setting.
    fn full(&self) -> u64
        ensures { result ≡ 2 ^ lanes self.now.inputs - 1 }
    {
        u64::MAX >> (WORD_SETTINGS - self.lanes())
    }

    // A word that is not in hand is taken as zero.
    fn taken(&self, word: u64) -> u64
        ensures { result ≡ taken self.now.inputs word }
    {
        if word <= self.full() { word } else { 0 }
    }

    // The word whose bits are bit p of each listed setting, p being the bit of an input.
    fn column(&self, p: u32) -> u64
        requires { p < self.now.inputs }
        ensures within { result < 2 ^ lanes self.now.inputs }
        ensures value { (j : ℕ) → j < lanes self.now.inputs → word_bit result j ≡ word_bit (64 * self.now.block + j) p }
    {
        if p < WORD_INPUTS {
            self.full() & pattern(p)
        } else if (self.block >> (p - WORD_INPUTS)) % 2 == 1 {
            self.full()
        } else {
            0
        }
    }
}

impl ChainAlgebra for Block {
    type Sign = u64;

    ghost Value = { ℕ → Bool };

    ghost ops = { functions };

    ghost bit = { λ f t. f t };

    ghost keeps = { keeps_nothing };

    ghost meaning = { λ b. block_meaning b.inputs b.block };

    ghost laws = { first_of (Prim.search rules, Prim.grind (arith, Self.row.coded.inj)) };

    ghost outside = { first_of (Prim.search rules, Prim.grind (arith, Self.row.coded.inj)) };

    fn zero(&self) -> u64 {
        0
    }

    fn one(&self) -> u64 {
        self.full()
    }

    fn join(&mut self, a: u64, b: u64) -> Result<u64, Declined> {
        Ok(self.taken(a) | self.taken(b))
    }

    fn meet(&mut self, a: u64, b: u64) -> Result<u64, Declined> {
        Ok(self.taken(a) & self.taken(b))
    }

    fn same(&self, a: u64, b: u64) -> bool {
        self.taken(a) == self.taken(b)
    }

    fn clear(&mut self) {}
}

impl SignalAlgebra for Block {
    const COVERS: bool = false;

    ghost COVERS = { false };

    // `inputs`, as `clear`, stands in each kind: an interface sees no field.
    fn inputs(&self) -> usize {
        self.inputs as usize
    }

    // The first input is the highest bit of a setting.
    fn input(&mut self, i: usize) -> Result<u64, Declined> {
        if i >= self.inputs as usize {
            return Ok(0);
        }
        Ok(self.column(self.inputs - 1 - i as u32))
    }

    fn complement(&mut self, a: u64) -> Result<u64, Declined> {
        Ok(self.full() & !self.taken(a))
    }

    fn first(&self, a: u64) -> Option<u32> {
        let word = self.taken(a);
        if word == 0 {
            return None;
        }
        Some(WORD_SETTINGS * self.block + word.trailing_zeros())
    }
}

impl Sample for Block {
    ghost Exists = { Stretch };

    ghost listed = { λ n k. range_with_len (64 * k) (lanes n) };

    ghost unspent = { Prim.search rules };

    // The algebra of a block of settings of at most 16 inputs.
    fn new(inputs: u32, block: u32) -> Result<Block, Fault>
        ensures as_asked { Made (Stretch inputs block) (λ b. (b.inputs ≡ inputs) × (b.block ≡ block)) result }
        ensures made { Made (Stretch inputs block) (λ a. Samples inputs (range_with_len (64 * block) (lanes inputs)) (block_meaning a.inputs a.block)) result }
    {
        if inputs > MOST_INPUTS || block > (setting_count(inputs) - 1) / WORD_SETTINGS {
            return Err(Reason::NoSuchAlgebra.into());
        }
        Ok(Block { inputs, block })
    }
}
