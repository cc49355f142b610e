//! The operators of comparisons.

/// The operator of a comparison.
#[derive(Clone, Copy, Debug, PartialEq, Eq, Drop)]
pub enum Op {
    /// `=`
    Equal,
    /// `!=`
    Unequal,
    /// `<`
    Less,
    /// `<=`
    AtMost,
    /// `>`
    Greater,
    /// `>=`
    AtLeast,
}
