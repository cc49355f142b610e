//! What takes a step of a match set back.

use q_base::Commit;
use query_core::Row;

/// What takes a step of a match set back.
#[derive(Drop)]
pub struct Undo {
    /// The commit of the set before the step.
    pub(crate) at: Commit,
    /// Whether the set had all rows before the step.
    pub(crate) whole: bool,
    pub(crate) rows: Rewind,
}

/// Where the written row was among the others, and where it is.
#[derive(Clone, Copy, Drop)]
pub struct Places {
    pub(crate) old: Option<usize>,
    pub(crate) new: Option<usize>,
}

/// What takes the rows back.
#[derive(Drop)]
pub enum Rewind {
    /// A step took out one row at most, put in one at most and cut off one at most.
    Step {
        /// The row that was taken out, and its position.
        taken: Option<(usize, Row)>,
        /// The position at which the new row was put in.
        put: Option<usize>,
        /// The last row, which was cut off.
        cut: Option<Row>,
    },
    /// The rows were made anew. These were the rows.
    Renewal {
        rows: Vec<Row>,
    },
}
