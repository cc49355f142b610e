//! Who watches a server while it works.

use hub_desk::Figures;
use q_base::Commit;

/// Who watches a server, and hears the figures of its store where it asks for them. It has no part in what
/// is served.
pub trait Monitor {
    /// Hears the last commit that was matched, behind each step of each matcher.
    fn hear_front(&self, front: Commit);

    /// Whether the figures are asked for. Each matcher looks behind each of its steps.
    fn is_asking(&self) -> bool;

    /// Hears the figures. It is called by a matcher, between two steps, and so it should not wait.
    fn hear(&self, figures: &Figures);

    /// Hears, once, that no further connection is taken: the server ends.
    fn end(&self);
}

/// Nobody, who never asks.
#[derive(Clone, Copy, Debug)]
pub struct NoMonitor;

impl Monitor for NoMonitor {
    fn hear_front(&self, _front: Commit) {}

    fn is_asking(&self) -> bool {
        false
    }

    fn hear(&self, _figures: &Figures) {}

    fn end(&self) {}
}
