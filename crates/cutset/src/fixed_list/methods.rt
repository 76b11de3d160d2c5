//! How a list in fixed memory is filled and read.
ghost use Rattle.std.specs.Prelude.{◌≡◌, ◌<◌, [], ◌∷◌, ◌++◌, length, replicate, slice_set};
ghost use Rattle.cutset.specs.Lists.{listed};

use crate::fixed_list::FixedList;

impl<T: Copy, const N: usize> FixedList<T, N> {
    /// The list of no items; `blank` stands in the unused places.
    pub(crate) fn new(blank: T) -> FixedList<T, N>
        ensures items { listed result ≡ [] }
        ensures places { result.places ≡ replicate N blank }
    {
        FixedList {
            places: [blank; N],
            len: 0,
        }
    }

    /// Adds an item after the others.
    pub(crate) fn push(&mut self, item: T)
        requires { length (listed self.old) < N }
        ensures items { listed self.new ≡ listed self.old ++ (item ∷ []) }
        ensures places { self.new.places ≡ slice_set self.old.places self.old.len item }
    {
        self.places[self.len] = item;
        self.len += 1;
    }

    /// The items in order.
    pub(crate) fn as_slice(&self) -> &[T]
        ensures { result.now ≡ listed self.now }
    {
        &self.places[..self.len]
    }
}
