//! Laws on tuples and on sets of row numbers.

ghost use Rattle.std.specs.Prelude.{◌≡◌, ◌<◌, ℕ, Bool, List, false, length, slice_index_or, true};
ghost use Rattle.pg_base.specs.declared.numbers.Tid.{Tid};
ghost use Rattle.heap.specs.work.TidSets.{is_member, rows_passing};
ghost use Rattle.heap.specs.work.Tuples.{padded, row_number};

/// A law: a tuple as one of a query of n relations has n numbers: a relation of the set has the number of its row, each
/// other relation 0.
pub fn padded_tuples_have_each_relation()
    ensures each { (n : ℕ) (set : ℕ → Bool) (row : List Tid) → length (padded n set row) ≡ n }
    ensures inside { (n : ℕ) (set : ℕ → Bool) (row : List Tid) (k : ℕ) → k < n → set k ≡ true → slice_index_or (padded n set row) k 0 ≡ row_number set row k }
    ensures outside { (n : ℕ) (set : ℕ → Bool) (row : List Tid) (k : ℕ) → k < n → set k ≡ false → slice_index_or (padded n set row) k 0 ≡ 0 }
{}

/// A law: those below a bound that pass a test have as members just these, and tests that agree below it give the same.
pub fn those_are_their_members()
    ensures members { (bound : ℕ) (test : ℕ → Bool) (n : ℕ) → n < bound → is_member (rows_passing bound test) n ≡ test n }
    ensures same { (bound : ℕ) (f g : ℕ → Bool) → ((n : ℕ) → n < bound → f n ≡ g n) → rows_passing bound f ≡ rows_passing bound g }
{}
