//! Lists in fixed memory.
ghost use Rattle.std.specs.Prelude.{◌≡◌, ◌≤◌, length, ⊤};

mod methods;

use std::alloc::AllocError;

/// A list of at most `N` items, in the order in which they were put in; it asks for no memory.
pub(crate) struct FixedList<T, const N: usize> {
    places: [T; N],
    len: usize,
    ghost full: { length places ≡ N },
    ghost within: { len ≤ N },
}

// By hand, as a derive is refused beside a ghost field in a generic struct.
impl<T: Copy, const N: usize> Clone for FixedList<T, N> {
    ghost is_clone = { λ list clone. clone ≡ list };

    ghost is_infallible = { λ _. ⊤ };

    fn clone(&self) -> Result<FixedList<T, N>, AllocError> {
        Ok(*self)
    }
}

impl<T: Copy, const N: usize> Copy for FixedList<T, N> {}
