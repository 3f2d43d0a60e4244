//! How much of the buffers of a front's connections is counted.
ghost use Rattle.std.specs.Prelude.{◌≡◌, ◌≢◌, ◌<◌, ◌≤◌, ℕ, true, [], Some, slice_get, OnOk, vec_len};
ghost use Rattle.connection_loop.specs.Counted.{IsBudget};

use outside::NoMemory;
use std::alloc::Global;

/// So many bytes of a buffer are free: those above them are counted.
pub const FREE_LEN: usize = 65_536;

/// How many bytes are counted for each connection, by its number, and how many are for all together, and may be.
#[derive(Drop)]
pub struct Budget {
    pub counted: Vec<usize>,
    pub all: usize,
    pub most: usize,
}

impl Budget {
    /// Of so many bytes, of which none are counted.
    pub fn new(alloc: Global, most: usize) -> Budget
        ensures budget { IsBudget result }
        ensures none { result.counted.items ≡ [] }
        ensures most { result.most ≡ most }
    {
        Budget {
            counted: Vec::new(alloc),
            all: 0,
            most,
        }
    }

    /// Makes room for a connection under this number.
    #[tactic(auto, using(crate::proofs::Budgets::pushed_sum, crate::proofs::Budgets::pushed_stays))]
    pub fn make_room(&mut self, number: u32) -> Result<(), NoMemory>
        requires { IsBudget self.old }
        ensures budget { IsBudget self.new }
        ensures most { self.new.most ≡ self.old.most }
        ensures same { (n k : ℕ) → slice_get self.old.counted.items n ≡ Some k → slice_get self.new.counted.items n ≡ Some k }
        ensures longer { vec_len self.old.counted ≤ vec_len self.new.counted }
        ensures room { OnOk result (number < vec_len self.new.counted) }
    {
        let mut len = self.counted.len();
        while len <= number as usize {
            self.counted.push(0)?;
            len += 1;
        }
        Ok(())
    }

    /// Counts so many bytes for a connection in place of those that were. Says whether there was room for them; where there was none, nothing is changed.
    #[tactic(auto, using(crate::proofs::Budgets::set_here, crate::proofs::Budgets::set_others, crate::proofs::Budgets::set_sum, crate::proofs::Budgets::one_counted))]
    pub fn count(&mut self, number: u32, bytes: usize) -> bool
        requires budget { IsBudget self.old }
        requires place { number < vec_len self.old.counted }
        ensures budget { IsBudget self.new }
        ensures most { self.new.most ≡ self.old.most }
        ensures same { vec_len self.new.counted ≡ vec_len self.old.counted }
        ensures here { result ≡ true → slice_get self.new.counted.items number ≡ Some bytes }
        ensures others { (n : ℕ) → n ≢ number → slice_get self.new.counted.items n ≡ slice_get self.old.counted.items n }
    {
        let others = self.all - self.counted[number as usize];
        if bytes > self.most - others {
            return false;
        }
        self.counted[number as usize] = bytes;
        self.all = others + bytes;
        true
    }
}
