//! The checks of a record, byte by byte.
ghost use Rattle.std.specs.Prelude.{◌≡◌, ◌+◌, ◌<◌, true, false, [], ◌∷◌, MatchResult};
ghost use Rattle.plan.specs.Limits.{most_drivers};
ghost use Rattle.sources.specs.First.{first_failing, Tells};
ghost use Rattle.sources.specs.Layout.{record_length, record_at, byte, earlier_lengths};
ghost use Rattle.sources.specs.Checks.{driver_check, driver_checks, front_checks, back_checks, record_checks};
ghost use Rattle.sources.specs.declared.fault.CardFault.TheVariants.{RecordByte};

use crate::fault::{CardFault, require};
use crate::layout::{
    BARRED, CLASSES, DRIVER_COUNT, DRIVERS, IS_BARRED, NO_DRIVER, START, ZERO_AFTER_DRIVERS,
    ZERO_AFTER_WEIGHT, ZERO_BEFORE_DRIVERS, ZERO_BEFORE_START,
};
use crate::record::Record;
use plan::{MOST_CLASSES, MOST_DRIVERS};

impl Record<'_> {
    /// Checks the record byte by byte; `earlier` is how many entries the tables before its own have.
    pub(crate) fn check(&self, earlier: u32) -> Result<(), CardFault>
        requires { earlier ≡ earlier_lengths self.now.bytes.now self.now.m }
        ensures { Tells result (first_failing (record_checks self.now.bytes.now self.now.m)) }
    {
        self.check_front()?;
        self.check_drivers()?;
        self.check_back(earlier)
    }

    /// Checks the bytes before the driver bytes.
    fn check_front(&self) -> Result<(), CardFault>
        ensures { Tells result (first_failing (front_checks self.now.bytes.now self.now.m)) }
    {
        self.check_byte(CLASSES, |byte| (1..=MOST_CLASSES).contains(&byte))?;
        self.check_byte(BARRED, |byte| byte <= IS_BARRED)?;
        self.check_byte(DRIVER_COUNT, |byte| byte <= MOST_DRIVERS)?;
        self.check_byte(ZERO_BEFORE_DRIVERS, |byte| byte == 0)
    }

    /// Checks the driver bytes, in their order.
    fn check_drivers(&self) -> Result<(), CardFault>
        ensures { Tells result (first_failing (driver_checks self.now.bytes.now self.now.m)) }
    {
        for position in 0..MOST_DRIVERS {
            self.check_driver(position)?;
        }
        Ok(())
    }

    /// Checks the driver byte at a position: a used one names a measure below `m` that no earlier one names, an unused one is marked so.
    fn check_driver(&self, position: u8) -> Result<(), CardFault>
        requires { position < most_drivers }
        ensures { Tells result (first_failing (driver_check self.now.bytes.now self.now.m position ∷ [])) }
    {
        let place = self.place(DRIVERS + position as usize);
        let driver = self.driver_byte(position);
        if position < self.driver_count() {
            require(
                driver < self.m && !self.drivers_before(position).contains(&driver),
                CardFault::DriverByte { place },
            )
        } else {
            require(driver == NO_DRIVER, CardFault::RecordByte { place })
        }
    }

    /// Checks the bytes after the driver bytes; `earlier` is how many entries the tables before the measure's own have.
    fn check_back(&self, earlier: u32) -> Result<(), CardFault>
        requires { earlier ≡ earlier_lengths self.now.bytes.now self.now.m }
        ensures { Tells result (first_failing (back_checks self.now.bytes.now self.now.m)) }
    {
        self.check_byte(ZERO_AFTER_DRIVERS, |byte| byte == 0)?;
        self.check_byte(ZERO_AFTER_WEIGHT, |byte| byte == 0)?;
        self.check_byte(ZERO_BEFORE_START, |byte| byte == 0)?;
        let place = self.place(START);
        require(self.start() == earlier, CardFault::TableStart { place })
    }

    /// Passes where the byte at an offset is one of those allowed, and refuses with its place where it is not.
    fn check_byte<F: FnOnce(u8) -> bool>(&self, offset: usize, allowed: F) -> Result<(), CardFault>
        requires offset { offset < record_length }
        requires allowed { F.pre allowed (byte self.now.bytes.now (record_at self.now.m + offset)) }
        ensures { MatchResult result (λ _. F.post allowed (byte self.now.bytes.now (record_at self.now.m + offset)) true) (λ e. (F.post allowed (byte self.now.bytes.now (record_at self.now.m + offset)) false) × (e ≡ RecordByte (record_at self.now.m + offset))) }
    {
        let place = self.place(offset);
        require(allowed(self.byte(offset)), CardFault::RecordByte { place })
    }
}
