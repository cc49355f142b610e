//! `==` of filters, orders and queries: equality of values.
ghost use Rattle.std.specs.Prelude.{◌≡◌};
ghost use Rattle.std.specs.Cmp.{partial_equiv_from_equiv};
ghost use Rattle.query_core.specs.Filters.{operands_of};
ghost use Rattle.query_core.specs.Same.{op_number, same_op, same_filter, same_operands, same_order, same_query};
ghost use Rattle.query_core.specs.SameLaws.{same_filter_equiv, same_order_equiv, same_query_equiv};

use crate::filter::{Filter, Form};
use crate::operator::Op;
use crate::query::{Order, Query};

impl PartialEq for Filter {
    ghost eq = { same_filter };

    ghost laws = { partial_equiv_from_equiv same_filter_equiv };

    fn eq(&self, other: &Filter) -> bool {
        same_filter(self, other)
    }
}

impl Eq for Filter {
    ghost laws = { same_filter_equiv };
}

impl PartialEq for Order {
    ghost eq = { same_order };

    ghost laws = { partial_equiv_from_equiv same_order_equiv };

    fn eq(&self, other: &Order) -> bool {
        self.paths == other.paths
    }
}

impl Eq for Order {
    ghost laws = { same_order_equiv };
}

impl PartialEq for Query {
    ghost eq = { same_query };

    ghost laws = { partial_equiv_from_equiv same_query_equiv };

    fn eq(&self, other: &Query) -> bool {
        self.collection == other.collection
            && self.filter == other.filter
            && self.order == other.order
            && self.skip == other.skip
            && self.take == other.take
    }
}

impl Eq for Query {
    ghost laws = { same_query_equiv };
}

#[cycle(same_filter)]
fn same_filter(a: &Filter, b: &Filter) -> bool
    ensures { result ≡ same_filter a.now b.now }
{
    match (&a.form, &b.form) {
        (Form::Constant(x), Form::Constant(y)) => x == y,
        (
            Form::Compare {
                path: p,
                op: x,
                value: v,
            },
            Form::Compare {
                path: q,
                op: y,
                value: w,
            },
        ) => p == q && same_op(*x, *y) && v == w,
        (
            Form::In {
                path: p,
                values: vs,
            },
            Form::In {
                path: q,
                values: ws,
            },
        ) => p == q && vs == ws,
        (Form::Has { path: p, value: v }, Form::Has { path: q, value: w }) => p == q && v == w,
        (Form::Exists { path: p }, Form::Exists { path: q }) => p == q,
        (Form::Not(x), Form::Not(y)) => same_filter(x, y),
        (Form::And(xs), Form::And(ys)) => same_operands(xs, ys),
        (Form::Or(xs), Form::Or(ys)) => same_operands(xs, ys),
        _ => false,
    }
}

#[cycle(same_filter)]
fn same_operands(xs: &[Filter], ys: &[Filter]) -> bool
    ensures { result ≡ same_operands (operands_of xs.now) (operands_of ys.now) }
{
    for i in 0..xs.len().min(ys.len()) {
        if !same_filter(&xs[i], &ys[i]) {
            return false;
        }
    }
    xs.len() == ys.len()
}

fn op_number(op: Op) -> u8
    ensures { result ≡ op_number op }
{
    match op {
        Op::Equal => 0,
        Op::Unequal => 1,
        Op::Less => 2,
        Op::AtMost => 3,
        Op::Greater => 4,
        Op::AtLeast => 5,
    }
}

fn same_op(a: Op, b: Op) -> bool
    ensures { result ≡ same_op a b }
{
    op_number(a) == op_number(b)
}
