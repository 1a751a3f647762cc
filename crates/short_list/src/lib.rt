// A list with room for N items in the value itself: nothing is allocated, and it is copied as its array is.
#![tactic(auto)]

ghost use Rattle.std.specs.Prelude.{◌≡◌, ◌+◌, ◌-◌, ◌<◌, ◌≤◌, [], ◌∷◌, ◌++◌, ◌==◌, length, take, reverse, slice_set, slice_get};

use std::marker::Model;
use std::ops::DerefSlice;

#[derive(Clone, Copy)]
pub struct ShortList<T, const N: usize> {
    cells: [T; N],
    len: usize,
}

impl<T, const N: usize> Model for ShortList<T, N> {
    ghost use Rattle.std.specs.Prelude.{◌≡◌, ◌≤◌, ◌++◌, length, take, drop};
    ghost use Rattle.std.proofs.Common.{arith, take-append-drop, length-take-le};
    ghost use Rattle.short_list.specs.ShortList.{ShortList as Items};

    ghost Value = { Items T };

    ghost view = { λ l. record { items = take l.len l.cells; spare = drop l.len l.cells } };

    ghost invariant = { λ l. (l.len ≤ N) × (length l.cells ≡ N) };

    // The unused places are part of the value: only so is a copy of the fields a copy of what contracts see.
    ghost inverse = { λ v. record { cells = v.items ++ v.spare; len = length v.items } };

    ghost inverse_ok = { λ l h i. record {
      cells = take-append-drop l.len l.cells i;
      len = length-take-le l.len l.cells (omega (arith, h.0, h.1)) i;
    } };
}

impl<T: Copy + Default, const N: usize> ShortList<T, N> {
    // The empty list; defaults stand in the unused places.
    #[inline]
    pub fn new() -> Self
        ensures { result.items ≡ [] }
    {
        ShortList {
            cells: [T::default(); N],
            len: 0,
        }
    }
}

impl<T: Copy, const N: usize> ShortList<T, N> {
    #[inline]
    pub fn len(&self) -> usize
        ensures value { result ≡ length self.now.items }
        ensures fits { result ≤ N }
    {
        self.len
    }

    #[inline]
    pub fn is_empty(&self) -> bool
        ensures { result ≡ (length self.now.items == 0) }
    {
        self.len == 0
    }

    #[inline]
    pub fn as_slice(&self) -> &[T]
        ensures value { result.now ≡ self.now.items }
        ensures fits { length result.now ≤ N }
    {
        &self.cells[..self.len]
    }

    // Adds an item at the end.
    #[inline]
    pub fn push(&mut self, item: T)
        requires { length self.old.items < N }
        ensures items { self.new.items ≡ self.old.items ++ item ∷ [] }
        ensures len { length self.new.items ≡ length self.old.items + 1 }
    {
        let len = self.len;
        self.cells[len] = item;
        self.len = len + 1;
    }

    // Puts an item in place of another.
    #[tactic(auto, using(crate::proofs::Front::front_long, crate::proofs::Front::front_read))]
    #[inline]
    pub fn set(&mut self, i: usize, item: T)
        requires { i < length self.old.items }
        ensures { self.new.items ≡ slice_set self.old.items i item }
    {
        let items = &mut self.cells[..self.len];
        items[i] = item;
    }

    // Turns the order round.
    #[tactic(auto, using(crate::proofs::Front::front_long, crate::proofs::Front::front_read))]
    pub fn reverse(&mut self)
        ensures { self.new.items ≡ reverse self.old.items }
    {
        let items = &mut self.cells[..self.len];
        items.reverse();
    }

    // Takes off the last item, if there is one.
    #[inline]
    pub fn pop(&mut self) -> Option<T>
        ensures rest { self.new.items ≡ take (length self.old.items - 1) self.old.items }
        ensures value { result ≡ slice_get self.old.items (length self.old.items - 1) }
    {
        if self.len == 0 {
            return None;
        }
        self.len -= 1;
        Some(self.cells[self.len])
    }

    // Keeps the first `len` items.
    #[inline]
    pub fn truncate(&mut self, len: usize)
        ensures { self.new.items ≡ take len self.old.items }
    {
        if len < self.len {
            self.len = len;
        }
    }

    // Takes off every item.
    #[inline]
    pub fn clear(&mut self)
        ensures { self.new.items ≡ [] }
    {
        self.len = 0;
    }
}

impl<T: Copy + Default, const N: usize> Default for ShortList<T, N> {
    ghost is_default = { λ l. l.items ≡ [] };

    fn default() -> Self {
        Self::new()
    }
}

// The full list of these items.
impl<T, const N: usize> From<[T; N]> for ShortList<T, N> {
    ghost from_gives = { λ array l. l.items ≡ array };

    fn from(array: [T; N]) -> Self {
        ShortList {
            cells: array,
            len: N,
        }
    }
}

impl<T: Copy, const N: usize> DerefSlice for ShortList<T, N> {
    type Elem = T;

    ghost deref_gives = { λ l items. (items ≡ l.items) × (length items ≤ N) };

    #[inline]
    fn deref(&self) -> &[T] {
        self.as_slice()
    }
}
