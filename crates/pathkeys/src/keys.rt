//! Lists of classes, none of them twice.

ghost use Rattle.std.specs.Prelude.{◌≡◌, IfOk};
ghost use Rattle.pathkeys.specs.work.Finding.{class_numbers};
ghost use Rattle.pathkeys.specs.Keys.{AreDifferent, covers};

use eq_classes::ClassNo;
use pg_base::Memory;
use smallvec::SmallVec;
use std::alloc::Global;
use std::marker::Model;

/// A list of classes by their numbers, none of them twice; rows are sorted by the first one, where it ties by the next,
/// and so on. Contracts see the numbers.
pub struct Keys {
    items: SmallVec<ClassNo, 4>,
}

impl Drop for Keys {
    fn drop(self) {
        let Keys { items: _ } = self;
    }
}

impl Model for Keys {
    ghost use Rattle.std.specs.Prelude.{List, ℕ};
    ghost use Rattle.pathkeys.specs.work.Finding.{class_numbers};
    ghost use Rattle.pathkeys.specs.Keys.{AreDifferent};

    ghost Value = { List ℕ };

    ghost view = { λ k. class_numbers k.items.items };

    ghost invariant = { λ k. AreDifferent (class_numbers k.items.items) };
}

impl Keys {
    /// The list of some classes. The condition is that none stands twice. The error means that memory ran out.
    pub fn from_slice(alloc: Global, s: &[ClassNo]) -> Result<Keys, Memory>
        requires different { AreDifferent (class_numbers s.now) }
        ensures list { IfOk result (λ keys. keys ≡ class_numbers s.now) }
    {
        let items = SmallVec::from_slice(alloc, s)?;
        Ok(Keys { items })
    }

    /// The classes in order, lent.
    pub fn items(&self) -> &[ClassNo]
        ensures list { class_numbers result.now ≡ self.now }
        ensures different { AreDifferent self.now }
    {
        self.items.as_slice()
    }

    /// An equal list. The error means that memory ran out.
    pub fn copy(&self, alloc: Global) -> Result<Keys, Memory>
        ensures equal { IfOk result (λ keys. keys ≡ self.now) }
    {
        Keys::from_slice(alloc, self.items())
    }
}

/// The list of classes found, none of them twice.
pub(crate) fn keys_of(items: SmallVec<ClassNo, 4>) -> Keys
    requires different { AreDifferent (class_numbers items.items) }
    ensures list { result ≡ class_numbers items.items }
{
    Keys { items }
}

/// Whether the second list is a prefix of the first.
pub fn covers(a: &Keys, b: &Keys) -> bool
    ensures prefix { result ≡ covers a.now b.now }
{
    a.items().starts_with(b.items())
}
