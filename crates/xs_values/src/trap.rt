//! Why a C program is stopped where C itself says nothing of what it does.

/// The name of a scalar. Names are given in the order of making, and none is given twice.
pub type Name = u32;

/// A use that C or Perl leaves undefined, or a limit of this project's profile.
#[derive(Clone, Copy, Debug, PartialEq, Eq)]
pub enum Trap {
    /// A signed result that its kind does not hold.
    Overflow,
    /// The divisor 0.
    Zero,
    /// A shift by less than 0, or by no less than the width.
    Shift,
    /// A variable that was never set.
    Unset,
    /// NULL where a thing is needed.
    Null,
    /// A place past the end of a list or a text.
    Bounds,
    /// A thing of another kind than the one that is needed.
    Kind,
    /// A record that has been freed.
    Freed,
    /// A scalar that has been freed: its name, and the name that the next new scalar gets.
    Gone { name: Name, next: Name },
    /// A text whose scalar has been set to a reference since.
    Stale,
    /// A scope or a mark that is not there.
    Scope,
    /// A limit on what one run may make.
    Large,
}
