// A list with a limit.
ghost use Rattle.std.specs.Prelude.{◌≡◌, ◌<◌, ◌≤◌, ◌↔◌, [], ◌∷◌, ◌++◌, length, IsTrue, IsOk, IsSome, IfErr, IfOk, IfSome, slice_index_or, remove, take};
ghost use Rattle.std.specs.Borrow.{sem};

use std::alloc::{AllocError, Global};
use std::marker::Model;
use std::ops::{Index, IndexMut};

// There are more items than the list may hold.
#[derive(Clone, Copy, PartialEq, Eq, Debug)]
pub struct TooMany;

// A list of at most `MOST` items. The memory for all of them is taken when the list is made, so that no later call
// needs memory. A clause sees the list of the items. No call asks for anything but indexing, which asks for an index
// within, as that of every list does.
#[derive(Drop)]
pub struct BoundedVec<T, const MOST: usize> {
    items: Vec<T>,
}

impl<T, const MOST: usize> Model for BoundedVec<T, MOST> {
    ghost use Rattle.std.specs.Prelude.{List, ◌≤◌, vec_len, vec_capacity, vec_items};

    ghost Value = { List T };

    ghost view = { λ s. vec_items s.items };

    // No more items than the limit, and room for as many as that.
    ghost invariant = { λ s. (vec_len s.items ≤ MOST) × (MOST ≤ vec_capacity s.items) };
}

impl<T, const MOST: usize> BoundedVec<T, MOST> {
    // An empty list, with room for `MOST` items.
    pub fn new(heap: Global) -> Result<Self, AllocError>
        ensures { IfOk result (λ s. s ≡ []) }
    {
        let items = Vec::with_capacity(heap, MOST)?;
        Ok(BoundedVec { items })
    }

    // The number of items.
    pub fn len(&self) -> usize
        ensures value { result ≡ length self.now }
        ensures fits { result ≤ MOST }
    {
        self.items.len()
    }

    // Whether there is no item.
    pub fn is_empty(&self) -> bool
        ensures { IsTrue result ↔ (self.now ≡ []) }
    {
        self.items.is_empty()
    }

    // Whether there are as many items as there may be.
    pub fn is_full(&self) -> bool
        ensures value { IsTrue result ↔ (length self.now ≡ MOST) }
        ensures fits { length self.now ≤ MOST }
    {
        self.len() == MOST
    }

    // The items.
    pub fn as_slice(&self) -> &[T]
        ensures value { result.now ≡ self.now }
        ensures fits { length result.now ≤ MOST }
    {
        self.items.as_slice()
    }
}

impl<T: Drop, const MOST: usize> BoundedVec<T, MOST> {
    // Appends an item, or gives it back where the list is full.
    pub fn push(&mut self, item: T) -> Result<(), T>
        ensures room { IsOk result ↔ (length self.old < MOST) }
        ensures back { IfErr result (λ e. e ≡ item) }
        ensures pushed { length self.old < MOST → self.new ≡ self.old ++ item ∷ [] }
        ensures kept { self.new ≡ take MOST (self.old ++ item ∷ []) }
    {
        if self.is_full() {
            return Err(item);
        }
        self.items.push_reserved(item);
        Ok(())
    }

    // Takes out the item at `index`, where there is one. The others keep their order.
    pub fn remove(&mut self, index: usize) -> Option<T>
        ensures known { IsSome result ↔ (index < length self.old) }
        ensures value { IfSome result (λ item. item ≡ slice_index_or self.old index item) }
        ensures removed { index < length self.old → self.new ≡ remove self.old index }
        ensures kept { length self.old ≤ index → self.new ≡ self.old }
    {
        if index >= self.len() {
            return None;
        }
        Some(self.items.remove(index))
    }

    // Takes out all items.
    pub fn clear(&mut self)
        ensures { self.new ≡ [] }
    {
        self.items.clear();
    }
}

impl<T: Copy, const MOST: usize> BoundedVec<T, MOST> {
    // Puts these items in place of the old ones, or refuses more than `MOST` and keeps the old ones.
    pub fn replace(&mut self, items: &[T]) -> Result<(), TooMany>
        ensures room { IsOk result ↔ (length items.now ≤ MOST) }
        ensures replaced { length items.now ≤ MOST → self.new ≡ items.now }
        ensures kept { MOST < length items.now → self.new ≡ self.old }
    {
        if items.len() > MOST {
            return Err(TooMany);
        }
        self.clear();
        self.items.extend_from_slice(items).map_err(|_| TooMany)
    }
}

impl<T, const MOST: usize> Index<usize> for BoundedVec<T, MOST> {
    type Output = T;

    ghost can_index = { λ s i. i < length s };

    ghost index_gives = { λ s i x. x ≡ slice_index_or s i x };

    fn index(&self, index: usize) -> &T
        requires { index < length self.now }
        ensures { result.now ≡ slice_index_or self.now index result.now }
    {
        &self.items[index]
    }
}

impl<T, const MOST: usize> IndexMut<usize> for BoundedVec<T, MOST> {
    ghost use Rattle.bounded.specs.Lends.{LendsItem};

    fn index_mut(&mut self, index: usize) -> &mut T
        requires { index < length self.old }
        ensures* writes_back { sem 𝓛 (LendsItem T.row MOST.row self.entry index result) }
        ensures value { result.now ≡ slice_index_or self.old index result.now }
    {
        &mut self.items[index]
    }
}
