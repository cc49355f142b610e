//! Filters: conditions on a document.

use crate::operator::Op;
use q_doc::{Node, Path};
use std::marker::Model;

/// A condition on a document. Contracts see it as a `Filter` of `specs/Filters.antt`.
#[cycle(filter)]
#[derive(Drop)]
pub struct Filter {
    pub form: Form,
}

/// The kinds of filters. A value is a text, a number, a truth value or null.
#[cycle(filter)]
#[derive(Drop)]
pub enum Form {
    /// True of every document, or of none.
    Constant(bool),
    /// The value at the path has the type of this value, and the comparison with it holds.
    Compare { path: Path, op: Op, value: Node },
    /// The value at the path is one of these.
    In { path: Path, values: Vec<Node> },
    /// The value at the path is an array, and this value is an element of it.
    Has { path: Path, value: Node },
    /// There is a value at the path.
    Exists { path: Path },
    /// The filter is false.
    Not(Box<Filter>),
    /// Each of these filters is true; a query has at least two here.
    And(Vec<Filter>),
    /// One of these filters is true; a query has at least two here.
    Or(Vec<Filter>),
}

impl Model for Filter {
    ghost use Rattle.query_core.specs.Filters.{Filter as Test, height};

    ghost Value = { Test };

    ghost use Rattle.query_core.specs.Code.{filter_code};

    ghost coded = { filter_code };

    ghost use Rattle.query_core.specs.Shape.{filter_of};

    ghost view = { λ a. filter_of a.form };

    ghost size = { height };

    ghost use Rattle.query_core.specs.ShapeFalls.{falls};

    ghost size_decreases = { λ a h. falls a.form };
}
