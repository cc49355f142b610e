//! Who is told how far a run has come.

/// Someone who watches a run.
pub trait Watch {
    /// This many steps were made.
    fn told(&mut self, done: u32);
}

/// Someone who takes no notice.
#[derive(Clone, Copy, Debug)]
pub struct Silent;

impl Watch for Silent {
    fn told(&mut self, _done: u32) {}
}
