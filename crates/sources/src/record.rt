//! The record of a measure.
ghost use Rattle.std.specs.Prelude.{◌+◌, ◌<◌, ◌≤◌, length};
ghost use Rattle.plan.specs.Limits.{most_measures};
ghost use Rattle.sources.specs.Layout.{record_length, record_at};

mod checks;
mod fields;

/// The record of the measure `m`, where it lies in the bytes of a card.
#[derive(Clone, Copy)]
pub(crate) struct Record<'a> {
    pub(crate) bytes: &'a [u8],
    pub(crate) m: u8,
    ghost known: { m < most_measures },
    ghost whole: { record_at m + record_length ≤ length bytes.now },
}
