//! The printed text of a query.
ghost use Rattle.std.specs.Prelude.{◌≡◌, ◌++◌, ◌||◌, IfOk, OnOk};
ghost use Rattle.query_core.specs.Filters.{constant, compared, listed, having, present, negated, operands_of};
ghost use Rattle.query_core.specs.Print.{value_text, values_text, op_text, is_every, is_some, in_parentheses, filter_text, every_text, some_text, order_item_text, order_text, print_query};

use crate::filter::{Filter, Form};
use crate::operator::Op;
use crate::query::{Order, Query};
use crate::words::{write_path, write_quoted};
use itoa::{Buffer, Integer};
use q_base::{Memory, Text};
use q_doc::{Node, Path, Shape};
use std::alloc::{AllocError, Global};

/// The printed text of a query, `f=FILTER;o=ORDER;s=SKIP;n=TAKE`.
pub fn print_query(alloc: Global, query: &Query) -> Result<Text, Memory>
    ensures { IfOk result (λ text. text ≡ print_query query.now) }
{
    let mut out = Vec::with_capacity(alloc, 64)?;
    write_query(&mut out, query)?;
    Ok(Text::of(out))
}

/// The printed text of a filter.
pub fn print_filter(alloc: Global, filter: &Filter) -> Result<Text, Memory>
    ensures { IfOk result (λ text. text ≡ filter_text filter.now) }
{
    let mut out = Vec::with_capacity(alloc, 64)?;
    write_filter(&mut out, filter)?;
    Ok(Text::of(out))
}

/// The printed text of an order, which is empty where there are no paths.
pub fn print_order(alloc: Global, order: &Order) -> Result<Text, Memory>
    ensures { IfOk result (λ text. text ≡ order_text order.now) }
{
    let mut out = Vec::new(alloc);
    write_order(&mut out, order)?;
    Ok(Text::of(out))
}

fn write_query(out: &mut Vec<u8>, query: &Query) -> Result<(), AllocError>
    ensures { OnOk result (out.new.items ≡ out.old.items ++ print_query query.now) }
{
    out.extend_from_slice(b"f=")?;
    write_filter(out, &query.filter)?;
    out.extend_from_slice(b";o=")?;
    write_order(out, &query.order)?;
    out.extend_from_slice(b";s=")?;
    write_number(out, query.skip)?;
    out.extend_from_slice(b";n=")?;
    write_number(out, query.take)?;
    Ok(())
}

fn write_order(out: &mut Vec<u8>, order: &Order) -> Result<(), AllocError>
    ensures { OnOk result (out.new.items ≡ out.old.items ++ order_text order.now) }
{
    let Some((first, rest)) = order.as_slice().split_first() else {
        return Ok(());
    };
    write_order_item(out, first)?;
    for item in rest {
        out.push(b',')?;
        write_order_item(out, item)?;
    }
    Ok(())
}

fn write_order_item(out: &mut Vec<u8>, item: &(Path, bool)) -> Result<(), AllocError>
    ensures { OnOk result (out.new.items ≡ out.old.items ++ order_item_text item.now) }
{
    write_path(out, &item.0)?;
    if item.1 {
        out.extend_from_slice(b" desc")?;
    }
    Ok(())
}

#[cycle(write_filter)]
fn write_filter(out: &mut Vec<u8>, filter: &Filter) -> Result<(), AllocError>
    ensures { OnOk result (out.new.items ≡ out.old.items ++ filter_text filter.now) }
{
    match &filter.form {
        Form::Constant(value) => write_truth(out, *value),
        Form::Compare { path, op, value } => write_comparison(out, path, *op, value),
        Form::In { path, values } => write_in(out, path, values),
        Form::Has { path, value } => write_has(out, path, value),
        Form::Exists { path } => write_exists(out, path),
        Form::Not(operand) => write_not(out, operand),
        Form::And(operands) => write_every(out, operands),
        Form::Or(operands) => write_some(out, operands),
    }
}

#[cycle(write_filter)]
fn write_not(out: &mut Vec<u8>, operand: &Filter) -> Result<(), AllocError>
    ensures { OnOk result (out.new.items ≡ out.old.items ++ filter_text (negated operand.now)) }
{
    out.extend_from_slice(b"not ")?;
    write_operand(out, operand, is_joined(operand))
}

#[cycle(write_filter)]
fn write_every(out: &mut Vec<u8>, operands: &[Filter]) -> Result<(), AllocError>
    ensures { OnOk result (out.new.items ≡ out.old.items ++ every_text (operands_of operands.now)) }
{
    let Some((first, rest)) = operands.split_first() else {
        return Ok(());
    };
    write_operand(out, first, is_joined(first))?;
    for operand in rest {
        out.extend_from_slice(b" and ")?;
        write_operand(out, operand, is_joined(operand))?;
    }
    Ok(())
}

#[cycle(write_filter)]
fn write_some(out: &mut Vec<u8>, operands: &[Filter]) -> Result<(), AllocError>
    ensures { OnOk result (out.new.items ≡ out.old.items ++ some_text (operands_of operands.now)) }
{
    let Some((first, rest)) = operands.split_first() else {
        return Ok(());
    };
    write_operand(out, first, is_some(first))?;
    for operand in rest {
        out.extend_from_slice(b" or ")?;
        write_operand(out, operand, is_some(operand))?;
    }
    Ok(())
}

/// Writes an operand, in parentheses where it needs them.
#[cycle(write_filter)]
fn write_operand(out: &mut Vec<u8>, operand: &Filter, inside: bool) -> Result<(), AllocError>
    ensures { OnOk result (out.new.items ≡ out.old.items ++ in_parentheses inside (filter_text operand.now)) }
{
    if !inside {
        return write_filter(out, operand);
    }
    out.push(b'(')?;
    write_filter(out, operand)?;
    out.push(b')')?;
    Ok(())
}

fn is_joined(filter: &Filter) -> bool
    ensures { result ≡ (is_every filter.now || is_some filter.now) }
{
    match &filter.form {
        Form::And(_) | Form::Or(_) => true,
        _ => false,
    }
}

fn is_some(filter: &Filter) -> bool
    ensures { result ≡ is_some filter.now }
{
    match &filter.form {
        Form::Or(_) => true,
        _ => false,
    }
}

fn write_comparison(out: &mut Vec<u8>, path: &Path, op: Op, value: &Node) -> Result<(), AllocError>
    ensures { OnOk result (out.new.items ≡ out.old.items ++ filter_text (compared path.now op value.now)) }
{
    write_path(out, path)?;
    out.push(b' ')?;
    out.extend_from_slice(op_text(op))?;
    out.push(b' ')?;
    write_value(out, value)
}

fn write_in(out: &mut Vec<u8>, path: &Path, values: &[Node]) -> Result<(), AllocError>
    ensures { OnOk result (out.new.items ≡ out.old.items ++ filter_text (listed path.now values.now)) }
{
    write_path(out, path)?;
    out.extend_from_slice(b" in [")?;
    write_values(out, values)?;
    out.push(b']')?;
    Ok(())
}

fn write_has(out: &mut Vec<u8>, path: &Path, value: &Node) -> Result<(), AllocError>
    ensures { OnOk result (out.new.items ≡ out.old.items ++ filter_text (having path.now value.now)) }
{
    write_path(out, path)?;
    out.extend_from_slice(b" has ")?;
    write_value(out, value)
}

fn write_exists(out: &mut Vec<u8>, path: &Path) -> Result<(), AllocError>
    ensures { OnOk result (out.new.items ≡ out.old.items ++ filter_text (present path.now)) }
{
    out.extend_from_slice(b"exists ")?;
    write_path(out, path)
}

fn write_values(out: &mut Vec<u8>, values: &[Node]) -> Result<(), AllocError>
    ensures { OnOk result (out.new.items ≡ out.old.items ++ values_text values.now) }
{
    let Some((first, rest)) = values.split_first() else {
        return Ok(());
    };
    write_value(out, first)?;
    for value in rest {
        out.extend_from_slice(b", ")?;
        write_value(out, value)?;
    }
    Ok(())
}

/// Writes a text, a number, a truth value or null, and of another value nothing.
fn write_value(out: &mut Vec<u8>, value: &Node) -> Result<(), AllocError>
    ensures { OnOk result (out.new.items ≡ out.old.items ++ value_text value.now) }
{
    match &value.shape {
        Shape::Null => out.extend_from_slice(b"null"),
        Shape::Bool(truth) => write_truth(out, *truth),
        Shape::Number(number) => write_number(out, *number),
        Shape::Text(text) => write_quoted(out, text.as_slice()),
        Shape::Array(_) => Ok(()),
        Shape::Object(_) => Ok(()),
    }
}

fn write_truth(out: &mut Vec<u8>, truth: bool) -> Result<(), AllocError>
    ensures { OnOk result (out.new.items ≡ out.old.items ++ filter_text (constant truth)) }
{
    if truth {
        out.extend_from_slice(b"true")
    } else {
        out.extend_from_slice(b"false")
    }
}

fn write_number<I: Integer>(out: &mut Vec<u8>, number: I) -> Result<(), AllocError>
    ensures { OnOk result (out.new.items ≡ out.old.items ++ I.text number) }
{
    let mut buffer = Buffer::new();
    out.extend_from_slice(buffer.format(number).as_bytes())
}

fn op_text(op: Op) -> &'static [u8]
    ensures { result.now ≡ op_text op }
{
    match op {
        Op::Equal => b"=",
        Op::Unequal => b"!=",
        Op::Less => b"<",
        Op::AtMost => b"<=",
        Op::Greater => b">",
        Op::AtLeast => b">=",
    }
}
