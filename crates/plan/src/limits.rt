//! The limits of a plan, for code; `specs/Limits.antt` has the same for contracts.

/// The most measures of a plan.
pub const MOST_MEASURES: usize = 64;

/// The most classes of a measure.
pub const MOST_CLASSES: u8 = 8;

/// The most drivers of a measure.
pub const MOST_DRIVERS: u8 = 3;

/// The largest alteration of an entry, in tenths of a millimetre.
pub const MOST_ALTERATION: u32 = 1_000_000;

/// The entry of what cannot be.
// A number among the others: the rules fix it, and cards hold it as one.
pub const NEVER: u32 = 4_294_967_295;
