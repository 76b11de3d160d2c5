//! The interface to a plan.
ghost use Rattle.std.specs.Prelude.{◌≡◌, length};
ghost use Rattle.plan.specs.Plan.{Plan, Lawful, driver_at};

/// Something that a plan is read from. Its meaning is one lawful plan, and every question is answered from that plan, on any argument:
/// outside the plan there are 0 classes, weight 0, no drivers and never, and everything is barred.
pub trait Source {
    /// The plan that this stands for.
    ghost plan: { Self → Plan };

    /// It keeps every limit of a plan.
    // Above the functions: what stands below them is a law, which no clause can name, nor a proof about a `&dyn Source`.
    ghost lawful: { (s : Self) → Lawful (plan s) };

    /// The number of measures.
    fn count(&self) -> u8
        ensures { result ≡ (plan self.now).count };

    /// The number of classes of the measure `m`.
    fn classes(&self, m: u8) -> u8
        ensures { result ≡ (plan self.now).classes m };

    /// The weight of the measure `m`.
    fn weight(&self, m: u8) -> u16
        ensures { result ≡ (plan self.now).weight m };

    /// Whether the measure `m` may not be held.
    fn barred(&self, m: u8) -> bool
        ensures { result ≡ (plan self.now).barred m };

    /// The number of measures that drive `m`.
    fn drivers(&self, m: u8) -> u8
        ensures { result ≡ length ((plan self.now).drivers m) };

    /// The driver of `m` at a position, or none.
    fn driver(&self, m: u8, position: u8) -> Option<u8>
        ensures { result ≡ driver_at (plan self.now) m position };

    /// The entry at a place of the table of `m`: the first driver's class turns slowest, the own class fastest.
    fn entry(&self, m: u8, place: u32) -> u32
        ensures { result ≡ (plan self.now).entry m place };
}
