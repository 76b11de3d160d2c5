//! Why no set is chosen.

/// Why no held set is chosen.
#[derive(Clone, Copy, PartialEq, Eq, Debug)]
pub enum ChoiceFault {
    /// Nothing that may be picked is left, and the graph is not empty: the openers of some loop are all barred and untaken.
    LoopBarred,
    /// A node holds less than is to come off it.
    HoldsTooLittle,
}
