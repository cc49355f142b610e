//! The operands of a filter, while they are joined and negated.
//!
//! What will be refused for its height is not built.
ghost use Rattle.std.specs.Prelude.{◌≡◌, ◌+◌, ◌-◌, ◌<◌, ◌≤◌, length, take, drop, IfOk, OnOk, true};
ghost use Rattle.query_core.specs.Filters.{constant};
ghost use Rattle.query_lang.specs.FilterReading.{joined, joined_height, kept, negated_times};

use crate::limits::MAX_HEIGHT;
use query_core::{Filter, Form};
use std::alloc::{AllocError, Global};

/// How operands are joined.
#[derive(Clone, Copy)]
pub(crate) enum Join {
    And,
    Or,
}

/// The operands from an index of the stack on, of this greatest height, joined, with the height of
/// the result. One operand is the result itself.
pub(crate) fn joined(
    operands: &mut Vec<Filter>,
    how: Join,
    from: usize,
    height: usize,
) -> Result<(Filter, usize), AllocError>
    ensures ok { IfOk result (λ r. r ≡ (joined how height (drop from operands.old.items), joined_height height (drop from operands.old.items))) }
    ensures rest { OnOk result (operands.new.items ≡ take from operands.old.items) }
{
    if operands.len().saturating_sub(from) == 1 {
        if let Some(operand) = operands.pop() {
            return Ok((operand, height));
        }
    }
    let parts = operands.split_off(operands.len().min(from))?;
    let height = height.saturating_add(1);
    if height > MAX_HEIGHT {
        return Ok((constant(), height));
    }
    let form = match how {
        Join::And => Form::And(parts),
        Join::Or => Form::Or(parts),
    };
    Ok((Filter { form }, height))
}

/// A filter negated `nots` times, where its height with these, `height`, is within the limit.
pub(crate) fn negated(
    alloc: Global,
    filter: Filter,
    nots: usize,
    height: usize,
) -> Result<Filter, AllocError>
    ensures { IfOk result (λ f. f ≡ kept height (negated_times nots filter)) }
{
    if height > MAX_HEIGHT {
        return Ok(constant());
    }
    let mut filter = filter;
    'nots: for _ in 0..nots {
        filter = Filter {
            form: Form::Not(Box::new(alloc, filter)?),
        };
    }
    Ok(filter)
}

/// What is built instead of a filter that will be refused.
fn constant() -> Filter
    ensures { result ≡ constant true }
{
    Filter {
        form: Form::Constant(true),
    }
}
