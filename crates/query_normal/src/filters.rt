//! Filters in normal form.
ghost use Rattle.std.specs.Prelude.{◌≡◌, ◌++◌, not, filter, IfOk, OnOk};
ghost use Rattle.std.specs.List.{list_any};
ghost use Rattle.query_core.specs.Filters.{constant, operands_of};
ghost use Rattle.query_normal.specs.Normal.{normal_filter, normal_parts, parts_of, is_constant, connected, joined, signed, one_of, values_once, filters_once};

use crate::sorting::{filters_once, values_once};
use q_base::Memory;
use q_doc::{Node, Path};
use query_core::{Filter, Form, Op};
use std::alloc::{AllocError, Global};

/// The normal form of a filter, or of its negation. It is made of the filter's own parts.
#[cycle(normal_filter)]
pub(crate) fn normal_filter(alloc: Global, negative: bool, filter: Filter) -> Result<Filter, Memory>
    ensures { IfOk result (λ f. f ≡ normal_filter negative filter) }
{
    match filter.form {
        Form::Not(operand) => normal_filter(alloc, !negative, Box::into_inner(operand)),
        Form::And(operands) => {
            let parts = normal_parts(alloc, negative, !negative, operands)?;
            Ok(connected(alloc, !negative, parts)?)
        }
        Form::Or(operands) => {
            let parts = normal_parts(alloc, negative, negative, operands)?;
            Ok(connected(alloc, negative, parts)?)
        }
        Form::In { path, values } => {
            let atom = one_of(path, values)?;
            Ok(signed(alloc, negative, atom)?)
        }
        form => Ok(signed(alloc, negative, Filter { form })?),
    }
}

/// The normal forms of operands, as what they add to an `and` or an `or`.
#[cycle(normal_filter)]
fn normal_parts(
    alloc: Global,
    negative: bool,
    is_and: bool,
    operands: Vec<Filter>,
) -> Result<Vec<Filter>, Memory>
    ensures { IfOk result (λ parts. parts.items ≡ normal_parts negative is_and (operands_of operands.items)) }
{
    let mut parts = Vec::with_capacity(alloc, operands.len())?;
    for operand in operands {
        let part = normal_filter(alloc, negative, operand)?;
        add_parts(&mut parts, is_and, part)?;
    }
    Ok(parts)
}

/// Adds what a filter adds to the operands of an `and` or an `or`.
fn add_parts(parts: &mut Vec<Filter>, is_and: bool, filter: Filter) -> Result<(), AllocError>
    ensures { OnOk result (parts.new.items ≡ parts.old.items ++ parts_of is_and filter) }
{
    match filter.form {
        Form::And(operands) => {
            if is_and {
                add_all(parts, operands)?;
                return Ok(());
            }
            parts.push(Filter {
                form: Form::And(operands),
            })?;
        }
        Form::Or(operands) => {
            if !is_and {
                add_all(parts, operands)?;
                return Ok(());
            }
            parts.push(Filter {
                form: Form::Or(operands),
            })?;
        }
        form => parts.push(Filter { form })?,
    }
    Ok(())
}

fn add_all(parts: &mut Vec<Filter>, operands: Vec<Filter>) -> Result<(), AllocError>
    ensures { OnOk result (parts.new.items ≡ parts.old.items ++ operands.items) }
{
    for operand in operands {
        parts.push(operand)?;
    }
    Ok(())
}

/// Operands joined by `and` or by `or`, without constants, in order and each once.
fn connected(alloc: Global, is_and: bool, parts: Vec<Filter>) -> Result<Filter, Memory>
    ensures { IfOk result (λ f. f ≡ connected is_and parts.items) }
{
    if has_constant(&parts, !is_and) {
        return Ok(constant(!is_and));
    }
    let parts = without_constant(is_and, parts);
    let parts = filters_once(alloc, parts)?;
    Ok(joined(is_and, parts))
}

fn has_constant(parts: &[Filter], value: bool) -> bool
    ensures { result ≡ list_any (is_constant value) parts.now }
{
    parts.iter().any(|part| is_constant(value, part))
}

fn is_constant(value: bool, filter: &Filter) -> bool
    ensures { result ≡ is_constant value filter.now }
{
    match &filter.form {
        Form::Constant(own) => *own == value,
        _ => false,
    }
}

fn constant(value: bool) -> Filter
    ensures { result ≡ constant value }
{
    Filter {
        form: Form::Constant(value),
    }
}

/// The filters that are not this constant.
fn without_constant(value: bool, parts: Vec<Filter>) -> Vec<Filter>
    ensures { result.items ≡ filter (λ f. not (is_constant value f)) parts.items }
{
    let mut parts = parts;
    parts.retain(|part| !is_constant(value, part));
    parts
}

/// Filters joined by `and` or by `or`. One is itself.
fn joined(is_and: bool, parts: Vec<Filter>) -> Filter
    ensures { result ≡ joined is_and parts.items }
{
    let mut parts = parts;
    if parts.len() < 2 {
        return match parts.pop() {
            Some(part) => part,
            None => constant(is_and),
        };
    }
    Filter {
        form: if is_and {
            Form::And(parts)
        } else {
            Form::Or(parts)
        },
    }
}

/// An atom or a constant, or its negation.
fn signed(alloc: Global, negative: bool, atom: Filter) -> Result<Filter, Memory>
    ensures { IfOk result (λ f. f ≡ signed negative atom) }
{
    if !negative {
        return Ok(atom);
    }
    if let Form::Constant(value) = &atom.form {
        return Ok(constant(!*value));
    }
    Ok(Filter {
        form: Form::Not(Box::new(alloc, atom)?),
    })
}

/// One of these values, in order and each once.
fn one_of(path: Path, values: Vec<Node>) -> Result<Filter, AllocError>
    ensures { IfOk result (λ f. f ≡ one_of path (values_once values.items)) }
{
    let mut values = values_once(values)?;
    if values.len() > 1 {
        return Ok(Filter {
            form: Form::In { path, values },
        });
    }
    match values.pop() {
        Some(value) => Ok(Filter {
            form: Form::Compare {
                path,
                op: Op::Equal,
                value,
            },
        }),
        None => Ok(constant(false)),
    }
}
