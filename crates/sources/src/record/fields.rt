//! What a record says.
ghost use Rattle.std.specs.Prelude.{◌≡◌, ◌+◌, ◌<◌, ◌≤◌, length, take};
ghost use Rattle.plan.specs.Limits.{most_measures, most_drivers};
ghost use Rattle.sources.specs.Layout.{record_length, record_at, byte, classes_of, barred_of, driver_count_of, driver_byte, drivers_of, weight_of, length_of, start_of};
ghost use Rattle.sources.specs.Passed.{RecordsPassed};

use crate::layout::{
    BARRED, CLASSES, DRIVER_COUNT, DRIVERS, IS_BARRED, START, WEIGHT, read_u16, read_u32,
    record_place,
};
use crate::record::Record;

impl<'a> Record<'a> {
    /// Where the byte at an offset lies in the card.
    // Offsets are constants, but for a driver byte's, a constant and a position; a type for those within a record would be no plainer.
    pub(crate) fn place(&self, offset: usize) -> usize
        requires { offset < record_length }
        ensures { result ≡ record_at self.now.m + offset }
    {
        record_place(self.m) + offset
    }

    /// The byte at an offset.
    pub(crate) fn byte(&self, offset: usize) -> u8
        requires { offset < record_length }
        ensures { result ≡ byte self.now.bytes.now (record_at self.now.m + offset) }
    {
        self.bytes[self.place(offset)]
    }

    /// The number of classes.
    pub(crate) fn classes(&self) -> u8
        ensures { result ≡ classes_of self.now.bytes.now self.now.m }
    {
        self.byte(CLASSES)
    }

    /// Whether the measure may not be held.
    pub(crate) fn barred(&self) -> bool
        ensures { result ≡ barred_of self.now.bytes.now self.now.m }
    {
        self.byte(BARRED) == IS_BARRED
    }

    /// The number of drivers.
    pub(crate) fn driver_count(&self) -> u8
        ensures { result ≡ driver_count_of self.now.bytes.now self.now.m }
    {
        self.byte(DRIVER_COUNT)
    }

    /// The driver byte at a position.
    pub(crate) fn driver_byte(&self, position: u8) -> u8
        requires { position < most_drivers }
        ensures { result ≡ driver_byte self.now.bytes.now self.now.m position }
    {
        self.byte(DRIVERS + position as usize)
    }

    /// The drivers that stand before a position.
    pub(crate) fn drivers_before(&self, position: u8) -> &'a [u8]
        requires position { position ≤ most_drivers }
        requires used { position ≤ driver_count_of self.now.bytes.now self.now.m }
        ensures { result.now ≡ take position (drivers_of self.now.bytes.now self.now.m) }
    {
        let first = self.place(DRIVERS);
        &self.bytes[first..first + position as usize]
    }

    /// The weight.
    pub(crate) fn weight(&self) -> u16
        ensures { result ≡ weight_of self.now.bytes.now self.now.m }
    {
        read_u16(self.bytes, self.place(WEIGHT))
    }

    /// How many entries the tables before the measure's own have.
    pub(crate) fn start(&self) -> u32
        ensures { result ≡ start_of self.now.bytes.now self.now.m }
    {
        read_u32(self.bytes, self.place(START))
    }

    /// How many entries the measure's table has: one for each choice of a class of its own and of each driver.
    pub(crate) fn table_length(&self) -> u32
        requires { RecordsPassed self.now.bytes.now (self.now.m + 1) }
        ensures { result ≡ length_of self.now.bytes.now self.now.m }
    {
        let mut length = self.classes() as u32;
        for driver in self.drivers_before(self.driver_count()) {
            let record = Record {
                bytes: self.bytes,
                m: *driver,
            };
            length *= record.classes() as u32;
        }
        length
    }
}
