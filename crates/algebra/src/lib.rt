// Algebras of signs: each sign in hand means a value, and values can be joined and met.
#![tactic(auto)]

ghost use Rattle.std.specs.Prelude.{◌≡◌, ℕ, ◌^◌, ◌≤◌, Bool, false, List, Decides};
ghost use Rattle.algebra.specs.Chain.{Chain, Laws};
ghost use Rattle.algebra.specs.Holding.{Meaning, Means, Forming, Cleared};
ghost use Rattle.algebra.specs.Signals.{Boolean, Listing, IsInput, IsComplement, First};
ghost use Rattle.algebra.specs.Made.{Made, Samples};

use text::fault::Fault;

pub mod block;
pub mod point;

// The most inputs of an algebra.
pub const MOST_INPUTS: u32 = 16;

// The number of settings of so many inputs, which who makes an algebra has tested.
pub(crate) fn setting_count(inputs: u32) -> u32
    requires { inputs ≤ 16 }
    ensures { result ≡ 2 ^ inputs }
{
    1 << inputs
}

// An algebra cannot hold what forming a value keeps, or could not before and is spent.
#[derive(Clone, Copy, Debug, PartialEq, Eq)]
pub struct Declined;

// A chain algebra. A sign that is not in hand is taken as zero.
pub trait ChainAlgebra {
    type Sign: Copy;

    ghost Value: { Type 0 };

    ghost ops: { Chain Value };

    // The value read at a setting; an algebra that is not one of signals may read as it likes.
    ghost bit: { Value → ℕ → Bool };

    // What is kept when a value is formed.
    ghost keeps: { Value → Value → Type 0 };

    ghost meaning: { Self → Meaning Self.Sign Value };

    fn zero(&self) -> Self::Sign
        ensures { Means (meaning self.now) result ops.zero };

    fn one(&self) -> Self::Sign
        ensures { Means (meaning self.now) result ops.one };

    fn join(&mut self, a: Self::Sign, b: Self::Sign) -> Result<Self::Sign, Declined>
        ensures { Forming keeps (meaning self.old) (ops.join ((meaning self.old).value a) ((meaning self.old).value b)) result (meaning self.new) };

    fn meet(&mut self, a: Self::Sign, b: Self::Sign) -> Result<Self::Sign, Declined>
        ensures { Forming keeps (meaning self.old) (ops.meet ((meaning self.old).value a) ((meaning self.old).value b)) result (meaning self.new) };

    // Whether two signs have one value.
    fn same(&self, a: Self::Sign, b: Self::Sign) -> bool
        ensures { Decides result ((meaning self.now).value a ≡ (meaning self.now).value b) };

    fn clear(&mut self)
        ensures { Cleared (meaning self.old) (meaning self.new) };

    ghost laws: { Laws ops };

    ghost outside: { (a : Self) (s : Self.Sign) → (meaning a).hand s ≡ false → (meaning a).value s ≡ ops.zero };
}

// A chain algebra made for a number of inputs, with a rising list of settings. Its values are functions from those settings
// to bits: join is or, meet is and.
pub trait SignalAlgebra: ChainAlgebra {
    // Whether the list has all settings.
    const COVERS: bool;

    ghost COVERS: { Bool };

    // The number of inputs.
    fn inputs(&self) -> usize
        ensures value { result ≡ (Self.ChainAlgebra.meaning self.now).inputs }
        ensures boolean { Boolean Self.ChainAlgebra.ops Self.ChainAlgebra.bit }
        ensures lists { Listing COVERS (Self.ChainAlgebra.meaning self.now) };

    // The function of an input, counted from 0.
    fn input(&mut self, i: usize) -> Result<Self::Sign, Declined>
        ensures { (v : Self.ChainAlgebra.Value) × IsInput Self.ChainAlgebra.bit (Self.ChainAlgebra.meaning self.old) i v × Forming Self.ChainAlgebra.keeps (Self.ChainAlgebra.meaning self.old) v result (Self.ChainAlgebra.meaning self.new) };

    fn complement(&mut self, a: Self::Sign) -> Result<Self::Sign, Declined>
        ensures { (v : Self.ChainAlgebra.Value) × IsComplement Self.ChainAlgebra.bit ((Self.ChainAlgebra.meaning self.old).value a) v × Forming Self.ChainAlgebra.keeps (Self.ChainAlgebra.meaning self.old) v result (Self.ChainAlgebra.meaning self.new) };

    // The first listed setting whose bit is 1.
    fn first(&self, a: Self::Sign) -> Option<u32>
        ensures { First (Self.ChainAlgebra.bit ((Self.ChainAlgebra.meaning self.now).value a)) (Self.ChainAlgebra.meaning self.now).listed result };
}

// A signal algebra of some settings only, which a number tells. It never declines.
pub trait Sample: SignalAlgebra {
    // Whether there is one of so many inputs with this number, and which settings it lists.
    ghost Exists: { ℕ → ℕ → Type 0 };

    ghost listed: { ℕ → ℕ → List ℕ };

    fn new(inputs: u32, number: u32) -> Result<Self, Fault>
        ensures made { Made (Exists inputs number) (λ a. Samples inputs (listed inputs number) (Self.ChainAlgebra.meaning a)) result };

    ghost unspent: { (a : Self) → (Self.ChainAlgebra.meaning a).spent ≡ false };
}
