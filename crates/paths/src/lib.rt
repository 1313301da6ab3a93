// The path solver over any chain algebra. That the signs are in hand stands in clauses: it is a fact of a table and of an algebra,
// which works on several tables in turn.
#![tactic(auto)]

ghost use Rattle.std.specs.Prelude.{◌≡◌, ◌+◌, ◌*◌, ◌^◌, ◌<◌, ◌≤◌, true, ◌≢◌, length};

use algebra::{ChainAlgebra, Declined};

// The place of column `j` of row `i` in a table of `nets` rows of `width` cells.
pub fn place(nets: usize, width: usize, i: usize, j: usize) -> usize
    requires row { i < nets }
    requires column { j < width }
    requires room { width * nets < 2 ^ 64 }
    ensures is { result ≡ i * width + j }
    ensures inside { result < width * nets }
{
    i * width + j
}

// Nets are numbered from 0. The table has a row for each: its links to all nets, and then its own value in each of several
// columns.
#[derive(Debug, Drop)]
pub struct Table<'a, S> {
    pub signs: &'a mut [S],
    pub nets: usize,
    pub columns: usize,
    pub ghost room: { (nets + columns) * nets ≤ length signs.now },
}

impl<'a, S: Copy> Table<'a, S> {
    ghost use Rattle.cell.specs.Lists.{Every};
    ghost use Rattle.paths.specs.Paths.{OneJoin};
    ghost use Rattle.paths.specs.Shapes.{SameTable};
    ghost use Rattle.paths.specs.Solving.{Solving};
    ghost use Rattle.paths.specs.Work.{Working, cell, relaxing, row_till, rows_till};

    // The cell `at` is joined with the meet of the cells `left` and `right`.
    fn relax<A: ChainAlgebra<Sign = S>>(
        &mut self,
        alg: &mut A,
        at: usize,
        left: usize,
        right: usize,
    ) -> Result<(), Declined>
        requires target { at < length self.old.signs.now }
        requires first { left < length self.old.signs.now }
        requires second { right < length self.old.signs.now }
        requires hand { Every (λ s. (A.ChainAlgebra.meaning alg.old).hand s ≡ true) self.old.signs.now }
        ensures working { Working A.ChainAlgebra.keeps (cell A.ChainAlgebra.ops at left right) (A.ChainAlgebra.meaning alg.old) (A.ChainAlgebra.meaning alg.new) self.old.signs.now self.new.signs.now result }
        ensures same { SameTable self.old self.new }
    {
        let through = alg.meet(self.signs[left], self.signs[right])?;
        let joined = alg.join(self.signs[at], through)?;
        self.signs[at] = joined;
        Ok(())
    }

    // The cells of a row.
    fn width(&self) -> usize
        requires { 0 < self.now.nets }
        ensures { result ≡ self.now.nets + self.now.columns }
    {
        self.nets + self.columns
    }

    // The place of column `j` of row `i`.
    pub fn place(&self, i: usize, j: usize) -> usize
        requires row { i < self.now.nets }
        requires column { j < self.now.nets + self.now.columns }
        ensures is { result ≡ i * (self.now.nets + self.now.columns) + j }
        ensures inside { result < length self.now.signs.now }
    {
        place(self.nets, self.width(), i, j)
    }

    // Row `i` takes up what it reaches through net `k`, in each column after `k` but its own.
    fn relax_row<A: ChainAlgebra<Sign = S>>(
        &mut self,
        alg: &mut A,
        k: usize,
        i: usize,
    ) -> Result<(), Declined>
        requires pivot { k < self.old.nets }
        requires row { i < self.old.nets }
        requires other { i ≢ k }
        requires hand { Every (λ s. (A.ChainAlgebra.meaning alg.old).hand s ≡ true) self.old.signs.now }
        ensures working { Working A.ChainAlgebra.keeps (relaxing A.ChainAlgebra.ops self.old.nets (self.old.nets + self.old.columns) k (row_till k i (self.old.nets + self.old.columns))) (A.ChainAlgebra.meaning alg.old) (A.ChainAlgebra.meaning alg.new) self.old.signs.now self.new.signs.now result }
        ensures same { SameTable self.old self.new }
    {
        // Two rows of one table are read and one of them is written, so cells are named by their places.
        let via = self.place(i, k);
        for j in k + 1..self.width() {
            if j != i {
                let at = self.place(i, j);
                let on = self.place(k, j);
                self.relax(alg, at, via, on)?;
            }
        }
        Ok(())
    }

    // Each other row takes up what it reaches through net `k`.
    fn eliminate_net<A: ChainAlgebra<Sign = S>>(
        &mut self,
        alg: &mut A,
        k: usize,
    ) -> Result<(), Declined>
        requires pivot { k < self.old.nets }
        requires hand { Every (λ s. (A.ChainAlgebra.meaning alg.old).hand s ≡ true) self.old.signs.now }
        ensures working { Working A.ChainAlgebra.keeps (relaxing A.ChainAlgebra.ops self.old.nets (self.old.nets + self.old.columns) k (rows_till k self.old.nets)) (A.ChainAlgebra.meaning alg.old) (A.ChainAlgebra.meaning alg.new) self.old.signs.now self.new.signs.now result }
        ensures same { SameTable self.old self.new }
    {
        // The number of a net is its row.
        for i in 0..self.nets {
            if i != k {
                self.relax_row(alg, k, i)?;
            }
        }
        Ok(())
    }

    // In each column, each net's own value becomes the join, over all its paths, of the meets along the path.
    #[tactic(auto, using(crate::proofs::ChainOrder::one_join))]
    pub fn solve<A: ChainAlgebra<Sign = S>>(&mut self, alg: &mut A) -> Result<(), Declined>
        requires hand { Every (λ s. (A.ChainAlgebra.meaning alg.old).hand s ≡ true) self.old.signs.now }
        ensures solving { Solving A.ChainAlgebra.keeps A.ChainAlgebra.ops self.old.nets self.old.columns (A.ChainAlgebra.meaning alg.old) (A.ChainAlgebra.meaning alg.new) self.old.signs.now self.new.signs.now result }
        ensures one_join { OneJoin A.ChainAlgebra.ops }
        ensures same { SameTable self.old self.new }
    {
        // With no own column there is nothing to solve.
        if self.columns == 0 {
            return Ok(());
        }
        // The number of a net is its row.
        for k in 0..self.nets {
            self.eliminate_net(alg, k)?;
        }
        Ok(())
    }
}
