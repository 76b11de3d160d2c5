//! A row that text is written into.
ghost use Rattle.std.specs.Prelude.{◌≤◌, length};

mod lines;
mod methods;

/// A row of bytes that text is written into, from its beginning on.
#[derive(Drop)]
pub(crate) struct Writer<'a> {
    row: &'a mut [u8],
    at: usize,
    ghost within: { at ≤ length row.now },
}
