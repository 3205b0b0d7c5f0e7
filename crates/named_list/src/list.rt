//! A growing list of things with names, and an index of the names.
ghost use Rattle.std.specs.Prelude.{◌≡◌, ◌<◌, ◌++◌, ◌∷◌, [], length, bytes_eq, IfSome, OnOk, OnErr, Some, option_map, slice_get};
ghost use Rattle.std.specs.List.{list_any};
ghost use Rattle.std.specs.Cmp.Lexicographic.{pointwise, lists_per, lists_equiv};
ghost use Rattle.named_list.specs.Names.{found_from};

use crate::named::Named;
use indexmap::IndexMap;
use pool_base::{List, NoMemory};
use std::alloc::Global;
use std::marker::Model;

/// A growing list of things with names, which contracts see as the list of them. Beside it stands
/// the number of the first thing of each name.
#[derive(Drop)]
pub struct NamedList<T: Named> {
    items: List<T>,
    numbers: IndexMap<String, usize>,
}

impl<T: Named> Model for NamedList<T> {
    ghost use Rattle.std.specs.Prelude.{List as Sequence};
    ghost use Rattle.std.specs.Coded.{coded_list};
    ghost use Rattle.named_list.specs.Names.{AreNumbers};

    ghost Value = { Sequence T };

    ghost coded = { coded_list T.code };

    ghost view = { λ a. a.items };

    ghost invariant = { λ a. AreNumbers T.name_of a.items a.numbers };
}

impl<T: Named> NamedList<T> {
    /// A list without items. It takes no memory.
    pub fn new(alloc: Global) -> Self
        ensures { result ≡ [] }
    {
        NamedList {
            items: List::new(alloc),
            numbers: IndexMap::new(alloc),
        }
    }

    pub fn len(&self) -> usize
        ensures { result ≡ length self.now }
    {
        self.items.len()
    }

    pub fn as_slice(&self) -> &[T]
        ensures { result.now ≡ self.now }
    {
        self.items.as_slice()
    }

    pub fn get(&self, at: usize) -> Option<&T>
        ensures { option_map (λ x. x.now) result ≡ slice_get self.now at }
    {
        self.items.get(at)
    }

    /// The first item of that name, and its number.
    pub fn find(&self, name: &str) -> Option<(usize, &T)>
        ensures found { option_map (λ x. (x.0, x.1.now)) result
            ≡ found_from T.name_of 0 name.now self.now }
        ensures item { IfSome result (λ x. slice_get self.now x.0 ≡ Some x.1.now) }
        ensures within { IfSome result (λ x. x.0 < length self.now) }
    {
        let number = *self.numbers.get(name)?;
        let item = self.items.get(number)?;
        Some((number, item))
    }

    /// Whether an item has that name.
    pub fn has(&self, name: &str) -> bool
        ensures { result ≡ list_any (λ x. bytes_eq (T.name_of x) name.now) self.now }
    {
        self.numbers.contains_key(name)
    }

    /// Puts an item behind the others. Its name may be that of one before it, which is then still
    /// the first.
    pub fn push(&mut self, item: T) -> Result<(), NoMemory>
    where
        T: Drop,
        ensures ok { OnOk result (self.new ≡ self.old ++ item ∷ []) }
        ensures err { OnErr result (self.new ≡ self.old) }
    {
        if self.numbers.contains_key(item.name()) {
            self.items.push(item)?;
            return Ok(());
        }
        let name = String::from_str(self.items.allocator(), item.name())?;
        self.numbers.reserve(1)?;
        let number = self.items.len();
        self.items.push(item)?;
        self.numbers.insert(name, number).unwrap();
        Ok(())
    }
}

impl<T: Named + PartialEq> PartialEq for NamedList<T> {
    ghost eq = { pointwise T.eq };

    ghost laws = { lists_per T.laws };

    fn eq(&self, other: &Self) -> bool {
        self.items == other.items
    }
}

impl<T: Named + Eq> Eq for NamedList<T> {
    ghost laws = { lists_equiv T.Eq.laws };
}
