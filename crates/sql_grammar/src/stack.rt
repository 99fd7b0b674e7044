//! What the grammar awaits, the next item first, without memory.

ghost use Rattle.std.specs.Prelude.{◌≡◌, ◌≢◌, ℕ, ◌+◌, ◌*◌, ◌<◌, ◌≤◌, List, [], ◌∷◌, ◌++◌, length, Option, MatchOption, ◌==◌};
ghost use Rattle.sql_grammar.specs.declared.table.Item.{Item};
ghost use Rattle.sql_grammar.specs.work.Machine.{depth_of, Fits};
ghost use Rattle.sql_grammar.specs.work.Steps.{IsPopped, IsStackStep};

use crate::class::Class;
use crate::table::{self, Item};
use pg_base::MOST_LEVELS;
use std::marker::Model;

/// Room for 16 items of a statement and 3 more for each level, one past `MOST_LEVELS` among them.
const CELLS: usize = 120;

/// A stack of items. Contracts see the list, the next item first.
pub struct Stack {
    cells: [Item; CELLS],
    len: usize,
    levels: usize,
}

impl Model for Stack {
    ghost use Rattle.std.specs.Prelude.{List, reverse, take, ◌≤◌, ◌≡◌};
    ghost use Rattle.sql_grammar.specs.declared.table.Item.{Item};
    ghost use Rattle.sql_grammar.specs.work.Machine.{depth_of};

    ghost Value = { List Item };

    ghost view = { λ s. reverse (take s.len s.cells) };

    ghost invariant = { λ s. (s.len ≤ 120) × (s.levels ≡ depth_of (reverse (take s.len s.cells))) };
}

impl Drop for Stack {
    fn drop(self) {
        let Stack {
            cells: _,
            len: _,
            levels: _,
        } = self;
    }
}

/// What a token did to the stack.
#[derive(Clone, Copy)]
pub enum Step {
    /// The token was awaited.
    Took,
    /// The token was not awaited, and something else has to come.
    Refused,
    /// The token was not awaited, and nothing else has to come.
    Ended,
    /// The token was awaited, and opens a level too many.
    TooDeep,
}

impl Stack {
    /// A stack of these items.
    pub fn new(items: &[Item]) -> Stack
        requires { length items.now ≤ 120 }
        ensures { result ≡ items.now }
    {
        let mut stack = Stack {
            cells: [Item::Whole; CELLS],
            len: 0,
            levels: 0,
        };
        stack.push_all(items);
        stack
    }

    /// The levels of an expression that are open.
    pub fn levels(&self) -> usize
        ensures { result ≡ depth_of self.now }
    {
        self.levels
    }

    /// Whether nothing is awaited.
    pub fn is_empty(&self) -> bool
        ensures { result ≡ (length self.now == 0) }
    {
        self.cells[..self.len].is_empty()
    }

    fn pop(&mut self) -> Option<Item>
        ensures { IsPopped result self.old self.new }
    {
        if self.len == 0 {
            return None;
        }
        self.len -= 1;
        let item = self.cells[self.len];
        self.levels -= table::level(item);
        Some(item)
    }

    fn push(&mut self, item: Item)
        requires { length self.old < 120 }
        ensures { self.new ≡ item ∷ self.old }
    {
        self.cells[self.len] = item;
        self.len += 1;
        self.levels += table::level(item);
    }

    fn push_all(&mut self, items: &[Item])
        requires { length items.now + length self.old ≤ 120 }
        ensures { self.new ≡ items.now ++ self.old }
    {
        for k in (0..items.len()).rev() {
            self.push(items[k]);
        }
    }

    /// Takes the token, where it is awaited: items for which nothing need come are passed over.
    pub fn step(&mut self, class: Class) -> Step
        requires fits { Fits 16 self.old }
        requires shallow { depth_of self.old ≤ MOST_LEVELS }
        ensures { IsStackStep result class self.old self.new }
    {
        while let Some(item) = self.pop() {
            match table::takes(item, class) {
                Some(items) => {
                    self.push_all(items);
                    return if self.levels() > MOST_LEVELS {
                        Step::TooDeep
                    } else {
                        Step::Took
                    };
                }
                None => {
                    if !table::may_be_empty(item) {
                        return Step::Refused;
                    }
                }
            }
        }
        Step::Ended
    }
}
