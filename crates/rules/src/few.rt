ghost use Rattle.std.specs.Prelude.{◌≡◌, ◌<◌, ◌≤◌, ⊤, length, [], OnOk, OnErr, ◌∷◌, ◌++◌};

use std::alloc::AllocError;

// At most N items, kept in the value itself: the first `count` places. `arrayvec` has no vector that is `Copy`,
// and the settings that are made of these are.
pub struct Few<T, const N: usize> {
    places: [T; N],
    count: usize,
    ghost fits: { count ≤ N },
}

// A copy is the same value. No derive writes this for a generic struct with a fact of its own.
impl<T: Copy, const N: usize> Clone for Few<T, N> {
    ghost is_clone = { λ x y. y ≡ x };

    ghost is_infallible = { λ _. ⊤ };

    fn clone(&self) -> Result<Few<T, N>, AllocError> {
        Ok(*self)
    }
}

impl<T: Copy, const N: usize> Copy for Few<T, N> {}

// There is no room for one more item.
#[derive(Clone, Copy, PartialEq, Eq, Debug)]
pub struct NoRoom;

impl<T: Copy, const N: usize> Few<T, N> {
    ghost use Rattle.rules.specs.Few.{items_of};

    // No items. Places that are not in use hold the filler, which nothing reads.
    pub fn none(filler: T) -> Few<T, N>
        ensures { items_of result ≡ [] }
    {
        Few {
            places: [filler; N],
            count: 0,
        }
    }

    // Appends an item, if there is room.
    pub fn push(&mut self, item: T) -> Result<(), NoRoom>
        ensures ok { OnOk result ((length (items_of self.old) < N) × (items_of self.new ≡ items_of self.old ++ item ∷ [])) }
        ensures err { OnErr result ((length (items_of self.old) ≡ N) × (self.new ≡ self.old)) }
    {
        if self.count >= N {
            return Err(NoRoom);
        }
        self.places[self.count] = item;
        self.count += 1;
        Ok(())
    }

    pub fn as_slice(&self) -> &[T]
        ensures { result.now ≡ items_of self.now }
    {
        let places = &self.places[..];
        &places[..self.count]
    }
}
