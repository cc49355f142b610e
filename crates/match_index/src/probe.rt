//! The equality of a filter, by whose value a query is found.
ghost use Rattle.std.specs.Prelude.{◌≡◌, option_map};
ghost use Rattle.query_core.specs.Filters.{operands_of};
ghost use Rattle.match_index.specs.Candidates.{probe_of, probe_by, equality_of, first_equality};

use q_doc::{Node, Path};
use query_core::{Filter, Form, Op};

/// The path and the value of the equality that each document which satisfies the filter meets: of
/// the filter itself, or of the first operand of an outermost conjunction that is one.
pub fn probe_of(filter: &Filter) -> Option<(&Path, &Node)>
    ensures { option_map (λ r. (r.0.now, r.1.now)) result ≡ probe_of filter.now }
{
    match &filter.form {
        Form::And(operands) => first_equality(operands),
        Form::Compare { path, op, value } => equality(path, *op, value),
        _ => None,
    }
}

/// The first operand that is an equality.
fn first_equality(operands: &[Filter]) -> Option<(&Path, &Node)>
    ensures { option_map (λ r. (r.0.now, r.1.now)) result ≡ first_equality (operands_of operands.now) }
{
    for operand in operands {
        let found = equality_of(operand);
        if found.is_some() {
            return found;
        }
    }
    None
}

/// The path and the value of a filter that is an equality.
fn equality_of(filter: &Filter) -> Option<(&Path, &Node)>
    ensures { option_map (λ r. (r.0.now, r.1.now)) result ≡ equality_of filter.now }
{
    match &filter.form {
        Form::Compare { path, op, value } => equality(path, *op, value),
        _ => None,
    }
}

/// The path and the value of a comparison that is an equality.
fn equality<'a>(path: &'a Path, op: Op, value: &'a Node) -> Option<(&'a Path, &'a Node)>
    ensures { option_map (λ r. (r.0.now, r.1.now)) result ≡ probe_by path.now op value.now }
{
    match op {
        Op::Equal => Some((path, value)),
        _ => None,
    }
}
