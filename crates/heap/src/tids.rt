//! Sets of row numbers as bitmaps.

ghost use Rattle.std.specs.Prelude.{◌≡◌, ◌<◌, ◌≤◌, ◌+◌, ◌*◌, ◌^◌, ◌/◌, ◌%◌, ◌||◌, ◌∷◌, [], ℕ, false, length, nat_eq, slice_index_or, bit_and, bit_or, IfSome, IfNone, IfOk};
ghost use Rattle.pg_base.specs.Sets.{has};
ghost use Rattle.heap.specs.work.TidSets.{IsTidSet, is_marked, not_below, rows_passing, IsNextBit, IsNextMarked, rows_of_either, common_rows, with_member};

use pg_base::{Memory, Tid};
use std::alloc::Global;
use std::marker::Model;

/// A set of row numbers below a bound, with a bit for each. Contracts see its members in order.
pub struct Tids {
    len: u32,
    words: Vec<u64>,
}

impl Drop for Tids {
    fn drop(self) {
        let Tids { len: _, words: _ } = self;
    }
}

impl Model for Tids {
    ghost use Rattle.std.specs.Prelude.{◌≡◌, ◌+◌, ◌/◌, length};
    ghost use Rattle.heap.specs.work.TidSets.{TidSet, is_marked, rows_passing};

    ghost Value = { TidSet };

    ghost view = { λ t. record { bound = t.len; members = rows_passing t.len (is_marked t.words.items) } };

    ghost invariant = { λ t. length t.words.items ≡ t.len / 64 + 1 };
}

impl Tids {
    /// The set without members, for row numbers below `len`. The only error is that memory ran out.
    pub fn empty(alloc: Global, len: u32) -> Result<Tids, Memory>
        ensures { IfOk result (λ s. s ≡ record { bound = len; members = [] }) }
    {
        let words = vec![in alloc; 0; (len / 64) as usize + 1]?;
        Ok(Tids { len, words })
    }

    /// Makes a row number a member.
    pub fn add(&mut self, t: Tid)
        requires { t.0 < self.old.bound }
        ensures { self.new ≡ with_member self.old t.0 }
    {
        let place = (t.0 / 64) as usize;
        self.words[place] = with_bit(self.words[place], t.0 % 64);
    }

    /// Keeps the members that are in the other set too.
    pub fn and(&mut self, o: &Tids)
        requires { o.now.bound ≡ self.old.bound }
        ensures { self.new ≡ common_rows self.old o.now }
    {
        meet(&mut self.words, &o.words);
    }

    /// Takes the members of the other set as well.
    pub fn or(&mut self, o: &Tids)
        requires { o.now.bound ≡ self.old.bound }
        ensures { self.new ≡ rows_of_either self.old o.now }
    {
        join(&mut self.words, &o.words);
    }

    /// The least member not below `t`. None exactly where there is none.
    pub fn from(&self, t: u32) -> Option<Tid>
        ensures some { IfSome result (λ m. not_below t self.now.members ≡ m.0 ∷ not_below (m.0 + 1) self.now.members) }
        ensures none { IfNone result (not_below t self.now.members ≡ []) }
        ensures within { IfSome result (λ m. m.0 < self.now.bound) }
        ensures ordered { IsTidSet self.now }
    {
        let len = u64::from(self.len);
        match first_mark(&self.words, t) {
            Some(mark) if mark < len => Some(Tid(mark as u32)),
            _ => None,
        }
    }
}

/// The word with one more bit set.
fn with_bit(word: u64, bit: u32) -> u64
    requires { bit < 64 }
    ensures { (k : ℕ) → has result k ≡ nat_eq k bit || has word k }
{
    (1 << bit) | word
}

/// The bits of the words that the others have too.
fn meet(words: &mut [u64], others: &[u64])
    requires { length words.old ≡ length others.now }
    ensures bits { (k : ℕ) → slice_index_or words.new k 0 ≡ bit_and (slice_index_or words.old k 0) (slice_index_or others.now k 0) }
{
    for place in 0..words.len() {
        words[place] &= others[place];
    }
}

/// The bits of the words and of the others.
fn join(words: &mut [u64], others: &[u64])
    requires { length words.old ≡ length others.now }
    ensures bits { (k : ℕ) → slice_index_or words.new k 0 ≡ bit_or (slice_index_or words.old k 0) (slice_index_or others.now k 0) }
{
    for place in 0..words.len() {
        words[place] |= others[place];
    }
}

/// The least number not below `t` whose bit is set.
fn first_mark(words: &[u64], t: u32) -> Option<u64>
    requires { length words.now ≤ 2 ^ 27 }
    ensures some { IfSome result (IsNextMarked words.now t) }
    ensures none { IfNone result ((n : ℕ) → t ≤ n → is_marked words.now n ≡ false) }
{
    for place in (t / 64) as usize..words.len() {
        if let Some(bit) = first_bit(words[place], lowest_bit(place, t)) {
            return Some(place as u64 * 64 + u64::from(bit));
        }
    }
    None
}

/// The lowest bit of word `place` that stands for a number not below `t`.
fn lowest_bit(place: usize, t: u32) -> u32
    requires { t / 64 ≤ place }
    ensures fits { result < 64 }
    ensures reached { t ≤ place * 64 + result }
    ensures lowest { (n : ℕ) → t ≤ n → n / 64 ≡ place → result ≤ n % 64 }
{
    if place == (t / 64) as usize {
        t % 64
    } else {
        0
    }
}

/// The lowest bit that is set, from one on.
fn first_bit(word: u64, from: u32) -> Option<u32>
    requires { from < 64 }
    ensures some { IfSome result (IsNextBit word from) }
    ensures none { IfNone result ((k : ℕ) → from ≤ k → has word k ≡ false) }
{
    let rest = word >> from;
    if rest == 0 {
        None
    } else {
        Some(from + rest.trailing_zeros())
    }
}
