//! The order of filters by their printed texts.
ghost use Rattle.std.specs.Prelude.{◌≡◌, ◌||◌, true, IfOk};
ghost use Rattle.std.specs.List.{list_all};
ghost use Rattle.std.specs.Str.{bytes_eq};
ghost use Rattle.std.specs.Ordering.{is_ne};
ghost use Rattle.q_doc.specs.Tree.{Tree};
ghost use Rattle.query_core.specs.Filters.{compared};
ghost use Rattle.query_core.specs.Print.{op_text, is_letter, is_digit, is_bare, is_reserved, filter_text, path_text};
ghost use Rattle.query_normal.specs.Normal.{text_cmp};
ghost use Rattle.query_normal.specs.TextOrder.{Begins, are_alike, first_difference};

use q_base::Memory;
use q_doc::Path;
use query_core::{Filter, Form, Op, print_filter};
use std::alloc::Global;
use std::cmp::Ordering;

/// The order of the printed texts of two filters. They are printed only where neither the
/// names with which they begin nor their operators tell.
pub(crate) fn compare_texts(alloc: Global, a: &Filter, b: &Filter) -> Result<Ordering, Memory>
    ensures { IfOk result (λ order. order ≡ text_cmp a.now b.now) }
{
    let by_names = first_difference(first_name(a), first_name(b));
    if by_names.is_ne() {
        return Ok(by_names);
    }
    let by_operators = compare_operators(a, b);
    if by_operators.is_ne() {
        return Ok(by_operators);
    }
    compare_printed(alloc, a, b)
}

/// The order of two comparisons at the same path by their operators, or else equal.
fn compare_operators(a: &Filter, b: &Filter) -> Ordering
    ensures { is_ne result ≡ true → result ≡ text_cmp a.now b.now }
{
    match (&a.form, &b.form) {
        (Form::Compare { path: p, op: x, .. }, Form::Compare { path: q, op: y, .. }) =>
            operators_at(p, *x, q, *y),
        _ => Ordering::Equal,
    }
}

/// The order of two operators by their signs, where the paths before them are the same, or else equal.
fn operators_at(p: &Path, x: Op, q: &Path, y: Op) -> Ordering
    ensures { (v w : Tree) → is_ne result ≡ true → result ≡ text_cmp (compared p.now x v) (compared q.now y w) }
{
    if p == q {
        first_difference(op_text(x), op_text(y))
    } else {
        Ordering::Equal
    }
}

/// Whether two filters are comparisons at one path by one operator.
pub(crate) fn are_alike(a: &Filter, b: &Filter) -> bool
    ensures { result ≡ are_alike a.now b.now }
{
    match (&a.form, &b.form) {
        (Form::Compare { path: p, op: x, .. }, Form::Compare { path: q, op: y, .. }) => {
            x == y && p == q
        }
        _ => false,
    }
}

/// The sign of an operator.
fn op_text(op: Op) -> &'static [u8]
    ensures { result.now ≡ op_text op }
{
    match op {
        Op::Equal => b"=",
        Op::Unequal => b"!=",
        Op::Less => b"<",
        Op::AtMost => b"<=",
        Op::Greater => b">",
        Op::AtLeast => b">=",
    }
}

/// The order of two filters, by printing both.
fn compare_printed(alloc: Global, a: &Filter, b: &Filter) -> Result<Ordering, Memory>
    ensures { IfOk result (λ order. order ≡ text_cmp a.now b.now) }
{
    let a = print_filter(alloc, a)?;
    let b = print_filter(alloc, b)?;
    Ok(a.as_slice().cmp(b.as_slice()))
}

/// The name with which the printed text of a filter begins: the first segment of the path of an atom,
/// where it is printed without quotes. Else it is empty.
fn first_name(filter: &Filter) -> &[u8]
    ensures { Begins result.now (filter_text filter.now) }
{
    match &filter.form {
        Form::Compare { path, .. } => first_segment(path),
        Form::In { path, .. } => first_segment(path),
        Form::Has { path, .. } => first_segment(path),
        _ => &[],
    }
}

/// The first segment of a path, where it is printed without quotes, and else nothing.
fn first_segment(path: &Path) -> &[u8]
    ensures { Begins result.now (path_text path.now) }
{
    let Some((first, _)) = path.segments().split_first() else {
        return &[];
    };
    let name = first.as_slice();
    if is_bare(name) { name } else { &[] }
}

/// Whether a segment is printed without quotes.
fn is_bare(name: &[u8]) -> bool
    ensures { result ≡ is_bare name.now }
{
    match name {
        [] => false,
        [first, ..] => is_letter(*first) && are_word_bytes(name) && !is_reserved(name),
    }
}

fn are_word_bytes(text: &[u8]) -> bool
    ensures { result ≡ list_all (λ b. is_letter b || is_digit b) text.now }
{
    text.iter().all(|byte| is_letter(*byte) || is_digit(*byte))
}

fn is_letter(byte: u8) -> bool
    ensures { result ≡ is_letter byte }
{
    byte.is_ascii_lowercase() || byte.is_ascii_uppercase() || byte == b'_'
}

fn is_digit(byte: u8) -> bool
    ensures { result ≡ is_digit byte }
{
    byte.is_ascii_digit()
}

/// Whether a word is one of the language.
fn is_reserved(word: &[u8]) -> bool
    ensures { result ≡ is_reserved word.now }
{
    match word.len() {
        2 => is_same(word, b"or") || is_same(word, b"in"),
        3 => {
            is_same(word, b"and")
                || is_same(word, b"not")
                || is_same(word, b"has")
                || is_same(word, b"asc")
        }
        4 => is_same(word, b"true") || is_same(word, b"null") || is_same(word, b"desc"),
        5 => is_same(word, b"false"),
        6 => is_same(word, b"exists"),
        _ => false,
    }
}

fn is_same(a: &[u8], b: &[u8]) -> bool
    ensures { result ≡ bytes_eq a.now b.now }
{
    a == b
}

/// The order of the first bytes that differ, where both have one.
fn first_difference(a: &[u8], b: &[u8]) -> Ordering
    ensures { result ≡ first_difference a.now b.now }
{
    for index in 0..a.len().min(b.len()) {
        if a[index] != b[index] {
            return a[index].cmp(&b[index]);
        }
    }
    Ordering::Equal
}
