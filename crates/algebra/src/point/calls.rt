ghost use Rattle.std.specs.Prelude.{◌≡◌, Bool, true, false, [], ◌∷◌};
ghost use Rattle.algebra.specs.Kinds.{bits, keeps_nothing, point_meaning};
ghost use Rattle.algebra.specs.Made.{Made, Setting, Samples};
ghost use Rattle.std.proofs.Common.{rules, arith};

use super::Point;
use crate::{ChainAlgebra, Declined, MOST_INPUTS, Sample, SignalAlgebra, setting_count};
use text::fault::{Fault, Reason};

impl ChainAlgebra for Point {
    type Sign = bool;

    ghost Value = { Bool };

    ghost ops = { bits };

    ghost bit = { λ v _. v };

    ghost keeps = { keeps_nothing };

    ghost meaning = { λ p. point_meaning p.inputs p.setting };

    ghost laws = { first_of (Prim.search rules, Prim.grind (arith, Self.row.coded.inj)) };

    ghost outside = { first_of (Prim.search rules, Prim.grind (arith, Self.row.coded.inj)) };

    fn zero(&self) -> bool {
        false
    }

    fn one(&self) -> bool {
        true
    }

    fn join(&mut self, a: bool, b: bool) -> Result<bool, Declined> {
        Ok(a | b)
    }

    fn meet(&mut self, a: bool, b: bool) -> Result<bool, Declined> {
        Ok(a & b)
    }

    fn same(&self, a: bool, b: bool) -> bool {
        a == b
    }

    fn clear(&mut self) {}
}

impl SignalAlgebra for Point {
    const COVERS: bool = false;

    ghost COVERS = { false };

    // `inputs`, as `clear`, stands in each kind: an interface sees no field.
    fn inputs(&self) -> usize {
        self.inputs as usize
    }

    // The first input is the highest bit of a setting.
    fn input(&mut self, i: usize) -> Result<bool, Declined> {
        let n = self.inputs as usize;
        Ok(i < n && (self.setting >> (n - 1 - i)) % 2 == 1)
    }

    fn complement(&mut self, a: bool) -> Result<bool, Declined> {
        Ok(!a)
    }

    fn first(&self, a: bool) -> Option<u32> {
        a.then_some(self.setting)
    }
}

impl Sample for Point {
    ghost Exists = { Setting };

    ghost listed = { λ n s. s ∷ [] };

    ghost unspent = { Prim.search rules };

    // The algebra of a setting of at most 16 inputs.
    fn new(inputs: u32, setting: u32) -> Result<Point, Fault>
        ensures as_asked { Made (Setting inputs setting) (λ p. (p.inputs ≡ inputs) × (p.setting ≡ setting)) result }
        ensures made { Made (Setting inputs setting) (λ a. Samples inputs (setting ∷ []) (point_meaning a.inputs a.setting)) result }
    {
        if inputs > MOST_INPUTS || setting >= setting_count(inputs) {
            return Err(Reason::NoSuchAlgebra.into());
        }
        Ok(Point { inputs, setting })
    }
}
