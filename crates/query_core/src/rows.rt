//! Rows, and lists of them.
ghost use Rattle.std.specs.Prelude.{◌≡◌, ◌==◌, length};

use q_base::{Commit, Name};
use q_doc::Doc;
use std::marker::Model;

/// An id, a version and a document. The version is the commit that put the document there.
pub type Row = (Name, Commit, Doc);

/// The documents of a collection.
#[derive(Drop)]
pub struct Docs {
    pub(crate) rows: Vec<Row>,
}

impl Model for Docs {
    ghost use Rattle.std.specs.Prelude.{List};
    ghost use Rattle.std.specs.Coded.{codes};
    ghost use Rattle.q_doc.specs.Code.{tree_code};
    ghost use Rattle.query_core.specs.Window.{Row};

    ghost Value = { List Row };

    ghost coded = { Prim.hlevel (codes, tree_code) };

    ghost view = { λ d. d.rows.items };
}

impl Docs {
    /// These documents, in no new memory.
    pub fn of(rows: Vec<(Name, Commit, Doc)>) -> Docs
        ensures { result ≡ rows.items }
    {
        Docs { rows }
    }

    /// The rows.
    pub fn as_slice(&self) -> &[Row]
        ensures { result.now ≡ self.now }
    {
        self.rows.as_slice()
    }

    /// The number of rows.
    pub fn len(&self) -> usize
        ensures { result ≡ length self.now }
    {
        self.rows.len()
    }

    /// Whether there is no row.
    pub fn is_empty(&self) -> bool
        ensures { result ≡ (length self.now == 0) }
    {
        self.rows.is_empty()
    }

    /// The rows, in no new memory.
    pub fn into_vec(self) -> Vec<Row>
        ensures { result.items ≡ self }
    {
        self.rows
    }
}

/// The rows that a query finds, in its order.
#[derive(Drop)]
pub struct Rows {
    pub(crate) rows: Vec<Row>,
}

impl Model for Rows {
    ghost use Rattle.std.specs.Prelude.{List};
    ghost use Rattle.std.specs.Coded.{codes};
    ghost use Rattle.q_doc.specs.Code.{tree_code};
    ghost use Rattle.query_core.specs.Window.{Row};

    ghost Value = { List Row };

    ghost coded = { Prim.hlevel (codes, tree_code) };

    ghost view = { λ r. r.rows.items };
}

impl Rows {
    /// These rows, in no new memory.
    pub fn of(rows: Vec<Row>) -> Rows
        ensures { result ≡ rows.items }
    {
        Rows { rows }
    }

    /// The rows.
    pub fn as_slice(&self) -> &[Row]
        ensures { result.now ≡ self.now }
    {
        self.rows.as_slice()
    }

    /// The number of rows.
    pub fn len(&self) -> usize
        ensures { result ≡ length self.now }
    {
        self.rows.len()
    }

    /// Whether there is no row.
    pub fn is_empty(&self) -> bool
        ensures { result ≡ (length self.now == 0) }
    {
        self.rows.is_empty()
    }

    /// The rows, in no new memory.
    pub fn into_vec(self) -> Vec<Row>
        ensures { result.items ≡ self }
    {
        self.rows
    }
}
