//! The limits of the language.
ghost use Rattle.std.specs.Prelude.{◌≡◌};
ghost use Rattle.query_core.specs.Limits.{most_leaves, most_height, most_paths, most_skip, most_take};
ghost use Rattle.q_doc.specs.Limits.{most_segments};
ghost use Rattle.query_lang.specs.Limits.{most_open, usual_take};

use q_doc::MAX_SEGMENTS;

/// The most atoms and listed values of a filter.
pub const MAX_LEAVES: usize = 256;

/// The greatest height of a filter.
pub const MAX_HEIGHT: usize = 32;

/// The most open parentheses.
pub const MAX_OPEN: usize = 64;

/// The most paths of an order.
pub const MAX_PATHS: usize = 4;

/// The most rows that a query leaves out.
pub const MAX_SKIP: u32 = 10_000;

/// The most rows that a query keeps.
pub const MAX_TAKE: u32 = 1_000;

/// How many rows a query keeps where it does not say.
pub const DEFAULT_TAKE: u32 = 100;

/// The limits are those of the definitions.
pub fn limits_are_stated()
    ensures leaves { MAX_LEAVES ≡ most_leaves }
    ensures height { MAX_HEIGHT ≡ most_height }
    ensures open { MAX_OPEN ≡ most_open }
    ensures paths { MAX_PATHS ≡ most_paths }
    ensures segments { MAX_SEGMENTS ≡ most_segments }
    ensures skip { MAX_SKIP ≡ most_skip }
    ensures take { MAX_TAKE ≡ most_take }
    ensures usual { DEFAULT_TAKE ≡ usual_take }
{}
