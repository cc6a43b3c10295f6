//! Items in order, at most `N`, without a heap.
ghost use Rattle.std.specs.Prelude.{◌≡◌, ◌+◌, ◌<◌, ◌≤◌, [], ◌∷◌, ◌++◌, length, take, remove, slice_get, MatchResult, MatchOption, ⊤};

use std::alloc::AllocError;

/// No room is left for one item more.
#[derive(Clone, Copy, PartialEq, Eq, Debug)]
pub struct Full;

/// The first `len` of the storage are the items; what stands behind them means nothing.
// An array with a length: a domain has no heap. Not the library's `ArrayVec`, which is not `Copy`.
pub struct FixedVec<T, const N: usize> {
    storage: [T; N],
    len: usize,
    ghost room: { len ≤ N },
}

// By hand: neither can be derived on a generic type with a ghost field.
impl<T: Copy, const N: usize> Clone for FixedVec<T, N> {
    ghost is_clone = { λ x y. y ≡ x };

    ghost is_infallible = { λ _. ⊤ };

    fn clone(&self) -> Result<Self, AllocError> {
        Ok(*self)
    }
}

impl<T: Copy, const N: usize> Copy for FixedVec<T, N> {}

impl<T: Copy, const N: usize> FixedVec<T, N> {
    /// No items. The filler stands where none was put.
    pub fn new(filler: T) -> FixedVec<T, N>
        ensures { result.len ≡ 0 }
    {
        FixedVec {
            storage: [filler; N],
            len: 0,
        }
    }

    /// How many items there are.
    pub fn len(&self) -> usize
        ensures value { result ≡ self.now.len }
        ensures items { result ≡ length (take self.now.len self.now.storage) }
        ensures room { result ≤ N }
    {
        self.as_slice().len()
    }

    /// The items in order.
    pub fn as_slice(&self) -> &[T]
        ensures { result.now ≡ take self.now.len self.now.storage }
    {
        &self.storage[..self.len]
    }

    /// The item at a place counted from 0.
    pub fn get(&self, place: usize) -> Option<T>
        ensures { result ≡ slice_get (take self.now.len self.now.storage) place }
    {
        self.as_slice().get(place).copied()
    }

    /// One item more at the end; refused where `N` stand.
    pub fn push(&mut self, item: T) -> Result<(), Full>
        ensures { MatchResult result (λ _. (self.old.len < N) × (self.new.len ≡ self.old.len + 1) × (take self.new.len self.new.storage ≡ take self.old.len self.old.storage ++ item ∷ [])) (λ _. (self.old.len ≡ N) × (self.new ≡ self.old)) }
    {
        if self.len >= N {
            return Err(Full);
        }
        self.storage[self.len] = item;
        self.len += 1;
        Ok(())
    }

    /// Takes out the item at a place; the others keep their order. Absent past the last.
    pub fn remove(&mut self, place: usize) -> Option<T>
        ensures { MatchOption result ((self.old.len ≤ place) × (self.new ≡ self.old)) (λ x. (slice_get (take self.old.len self.old.storage) place ≡ Some x) × (self.new.len + 1 ≡ self.old.len) × (take self.new.len self.new.storage ≡ remove (take self.old.len self.old.storage) place)) }
    {
        let item = self.get(place)?;
        self.storage.copy_within(place + 1..self.len, place);
        self.len -= 1;
        Some(item)
    }
}
