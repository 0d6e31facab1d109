ghost use Rattle.std.specs.Prelude.{◌≡◌, ◌≤◌, [], ◌∷◌, ◌++◌, length, take, IfErr, OnOk, OnErr};
ghost use Rattle.std.specs.Borrow.{sem, Lends, Array};
ghost use Rattle.cov_base.specs.contracts.list.List.{the_row};
ghost use Rattle.cov_base.specs.Lending.{with_items};

use crate::memory::Memory;
use std::alloc::Global;
use std::marker::Model;

/// A `Vec` that contracts see as the list of its items.
#[derive(Debug, Drop)]
pub struct List<T> {
    items: Vec<T>,
}

impl<T> Model for List<T> {
    ghost use Rattle.std.specs.Prelude.{List as Seq};
    ghost use Rattle.std.specs.Coded.{coded_list};

    ghost Value = { Seq T };

    ghost coded = { coded_list T.code };

    ghost view = { λ it. it.items.items };
}

impl<T> List<T> {
    /// The empty list, which takes no memory. Constant time.
    pub fn new(alloc: Global) -> List<T>
        ensures { result ≡ [] }
    {
        List {
            items: Vec::new(alloc),
        }
    }

    /// A list of these items, in constant time.
    pub fn from_vec(items: Vec<T>) -> List<T>
        ensures { result ≡ items.items }
    {
        List { items }
    }

    /// The items, in constant time.
    pub fn into_vec(self) -> Vec<T>
        ensures { result.items ≡ self }
    {
        let List { items } = self;
        items
    }

    /// The items, in constant time.
    pub fn as_slice(&self) -> &[T]
        ensures { result.now ≡ self.now }
    {
        self.items.as_slice()
    }

    /// The items, each of which may be written. Constant time.
    pub fn items_mut(&mut self) -> &mut [T]
        ensures* writes_back { sem 𝓛
            (Lends (the_row T.row) (Array T.row 0) self.entry result (with_items self.old)) }
        ensures value { result.now ≡ self.old }
    {
        self.items.as_mut_slice()
    }

    /// The number of items, in constant time.
    pub fn len(&self) -> usize
        ensures { result ≡ length self.now }
    {
        self.items.len()
    }

    /// Adds an item at the end, or gives it back for want of memory. Constant time over many calls.
    pub fn push(&mut self, item: T) -> Result<(), T>
        ensures ok { OnOk result (self.new ≡ self.old ++ item ∷ []) }
        ensures err { OnErr result (self.new ≡ self.old) }
        ensures returned { IfErr result (λ back. back ≡ item) }
    {
        match self.items.push(item) {
            Ok(()) => Ok(()),
            Err(failed) => Err(failed.value),
        }
    }
}

impl<T: Copy> List<T> {
    /// Adds a copy of each item at the end, or answers `Memory` for want of it. The cost is linear
    /// in the new items, over many calls.
    pub fn extend_from_slice(&mut self, items: &[T]) -> Result<(), Memory>
        ensures ok { OnOk result (self.new ≡ self.old ++ items.now) }
        ensures err { OnErr result (self.new ≡ self.old) }
    {
        self.items.extend_from_slice(items)?;
        Ok(())
    }
}

impl<T: Drop> List<T> {
    /// Adds an item at the end. Answers `Memory` for want of it: the list is then as before, and
    /// the item is dropped. Constant time over many calls.
    pub fn add(&mut self, item: T) -> Result<(), Memory>
        ensures ok { OnOk result (self.new ≡ self.old ++ item ∷ []) }
        ensures err { OnErr result (self.new ≡ self.old) }
    {
        match self.push(item) {
            Ok(()) => Ok(()),
            Err(_) => Err(Memory),
        }
    }

    /// Keeps the first `len` items. The cost is linear in the items that go.
    pub fn cut(&mut self, len: usize)
        requires { len ≤ length self.old }
        ensures { self.new ≡ take len self.old }
    {
        self.items.truncate(len);
    }
}
