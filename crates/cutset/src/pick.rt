//! One pick.

/// A picked measure, together with its share when it was picked.
#[derive(Clone, Copy, PartialEq, Eq, Debug)]
pub struct Pick {
    pub measure: u8,
    pub share: u32,
}
