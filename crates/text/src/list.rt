//! Lists of bounded length that stand in place, for where there is no heap.
ghost use Rattle.std.specs.Prelude.{◌≤◌};

use std::alloc::AllocError;

// A count beside the array, and no `Vec`, for there is no heap.
/// At most N items, at the first `len` places of an array; the places past them mean nothing.
pub struct ArrayList<T, const N: usize> {
    places: [T; N],
    len: usize,
    ghost fits: { len ≤ N },
}

impl<T: Copy, const N: usize> Copy for ArrayList<T, N> {}

// Written out: over a type parameter no derive of `Clone` goes with a ghost field.
impl<T: Copy, const N: usize> Clone for ArrayList<T, N> {
    ghost use Rattle.std.specs.Prelude.{◌≡◌, ⊤};

    // The same list, and never out of memory.
    ghost is_clone = { λ list copy. copy ≡ list };

    ghost is_infallible = { λ _. ⊤ };

    fn clone(&self) -> Result<Self, AllocError> {
        Ok(*self)
    }
}

impl<T: Copy, const N: usize> ArrayList<T, N> {
    ghost use Rattle.std.specs.Prelude.{◌≡◌, ◌<◌, [], length};
    ghost use Rattle.text.specs.Lists.{items, Pushes, Pops, Fills};

    /// No items: every place holds `blank`.
    pub fn empty(blank: T) -> ArrayList<T, N>
        ensures { items result ≡ [] }
    {
        ArrayList {
            places: [blank; N],
            len: 0,
        }
    }

    /// The items of a slice, the free places holding `blank`; none where there are more than N.
    pub fn from_slice(blank: T, slice: &[T]) -> Option<ArrayList<T, N>>
        ensures { Fills N slice.now result }
    {
        if slice.len() > N {
            return None;
        }
        let mut places = [blank; N];
        places[..slice.len()].copy_from_slice(slice);
        Some(ArrayList {
            places,
            len: slice.len(),
        })
    }

    /// How many items there are.
    pub fn len(&self) -> usize
        ensures { result ≡ length (items self.now) }
    {
        self.as_slice().len()
    }

    /// The items in order.
    pub fn as_slice(&self) -> &[T]
        ensures { result.now ≡ items self.now }
    {
        &self.places[..self.len]
    }

    /// One item more, behind the others; a full list stays as it is and gives the item back.
    pub fn push(&mut self, item: T) -> Result<(), T>
        ensures { Pushes N self.old item self.new result }
    {
        if self.len == N {
            return Err(item);
        }
        self.places[self.len] = item;
        self.len += 1;
        Ok(())
    }

    /// Takes the last item off.
    pub fn pop(&mut self) -> Option<T>
        ensures { Pops self.old self.new result }
    {
        self.len = self.len.checked_sub(1)?;
        Some(self.places[self.len])
    }

    /// Takes every item off.
    pub fn clear(&mut self)
        ensures { items self.new ≡ [] }
    {
        self.len = 0;
    }
}
