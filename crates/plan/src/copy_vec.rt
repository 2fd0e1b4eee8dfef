//! A vector that is copied with the value that holds it.
ghost use Rattle.std.specs.Prelude.{◌≡◌, ◌+◌, ◌<◌, ◌≤◌, ◌==◌, [], ◌∷◌, ◌++◌, length, take, ⊤};

use std::alloc::AllocError;

/// At most `N` items, one after the other, in the value itself. It is `Copy` where its items are; the library's `ArrayVec` is not, and
/// a plan has to be. No `==` is derived, which would compare the places behind the items too.
#[derive(Debug)]
pub(crate) struct CopyVec<T, const N: usize> {
    places: [T; N],
    count: usize,
    ghost within: { count ≤ N },
}

// Written out, since no `Clone` is derived where there are a ghost field and a type parameter.
impl<T: Copy, const N: usize> Clone for CopyVec<T, N> {
    ghost is_clone = { λ x y. y ≡ x };

    ghost is_infallible = { λ _. ⊤ };

    fn clone(&self) -> Result<CopyVec<T, N>, AllocError> {
        Ok(*self)
    }
}

impl<T: Copy, const N: usize> Copy for CopyVec<T, N> {}

impl<T: Copy, const N: usize> CopyVec<T, N> {
    ghost use Rattle.plan.specs.Spans.{items};

    /// The vector without items. The places behind the items have the blank.
    pub(crate) fn new(blank: T) -> CopyVec<T, N>
        ensures { items result ≡ [] }
    {
        CopyVec {
            places: [blank; N],
            count: 0,
        }
    }

    /// How many items there are.
    pub(crate) fn len(&self) -> usize
        ensures value { result ≡ length (items self.now) }
        ensures fits { result ≤ N }
    {
        self.count
    }

    /// Whether there is none.
    pub(crate) fn is_empty(&self) -> bool
        ensures { result ≡ (length (items self.now) == 0) }
    {
        self.count == 0
    }

    /// The items.
    pub(crate) fn as_slice(&self) -> &[T]
        ensures { result.now ≡ items self.now }
    {
        &self.places[..self.count]
    }

    /// One item more, behind the others.
    pub(crate) fn push(&mut self, item: T)
        requires { length (items self.old) < N }
        ensures { items self.new ≡ items self.old ++ item ∷ [] }
    {
        self.places[self.count] = item;
        self.count += 1;
    }

    /// These items more, behind the others.
    pub(crate) fn extend(&mut self, more: &[T])
        requires { length (items self.old) + length more.now ≤ N }
        ensures { items self.new ≡ items self.old ++ more.now }
    {
        let from = self.count;
        let places = &mut self.places[..];
        places[from..from + more.len()].copy_from_slice(more);
        self.count = from + more.len();
    }
}
