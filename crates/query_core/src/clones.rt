//! `clone` of filters, orders and queries: each clone is the same value.
ghost use Rattle.std.specs.Prelude.{◌≡◌, IfOk};

use crate::filter::{Filter, Form};
use crate::query::{Order, Query};
use q_doc::{Node, Path};
use std::alloc::AllocError;

impl Clone for Filter {
    ghost is_clone = { λ s t. s ≡ t };

    fn clone(&self) -> Result<Filter, AllocError> {
        clone_of(self)
    }
}

impl Clone for Order {
    ghost is_clone = { λ s t. s ≡ t };

    fn clone(&self) -> Result<Order, AllocError> {
        Ok(Order {
            paths: clone_of_paths(&self.paths)?,
        })
    }
}

impl Clone for Query {
    ghost is_clone = { λ s t. s ≡ t };

    fn clone(&self) -> Result<Query, AllocError> {
        Ok(Query {
            collection: self.collection.clone()?,
            filter: self.filter.clone()?,
            order: self.order.clone()?,
            skip: self.skip,
            take: self.take,
        })
    }
}

#[cycle(clone_of)]
fn clone_of(filter: &Filter) -> Result<Filter, AllocError>
    ensures { IfOk result (λ f. filter.now ≡ f) }
{
    let form = match &filter.form {
        Form::Constant(value) => Form::Constant(*value),
        Form::Compare { path, op, value } => Form::Compare {
            path: path.clone()?,
            op: *op,
            value: value.clone()?,
        },
        Form::In { path, values } => Form::In {
            path: path.clone()?,
            values: clone_of_values(values)?,
        },
        Form::Has { path, value } => Form::Has {
            path: path.clone()?,
            value: value.clone()?,
        },
        Form::Exists { path } => Form::Exists {
            path: path.clone()?,
        },
        Form::Not(operand) => Form::Not(clone_of_operand(operand)?),
        Form::And(operands) => Form::And(clone_of_operands(operands)?),
        Form::Or(operands) => Form::Or(clone_of_operands(operands)?),
    };
    Ok(Filter { form })
}

#[cycle(clone_of)]
fn clone_of_operand(operand: &Box<Filter>) -> Result<Box<Filter>, AllocError>
    ensures { IfOk result (λ f. operand.now.value ≡ f.value) }
{
    let cloned = clone_of(operand)?;
    Ok(Box::new(*Box::allocator(operand), cloned)?)
}

#[cycle(clone_of)]
fn clone_of_operands(operands: &Vec<Filter>) -> Result<Vec<Filter>, AllocError>
    ensures { IfOk result (λ v. operands.now.items ≡ v.items) }
{
    let mut clones = Vec::with_capacity(*operands.allocator(), operands.len())?;
    for operand in operands {
        clones.push(clone_of(operand)?)?;
    }
    Ok(clones)
}

fn clone_of_values(values: &Vec<Node>) -> Result<Vec<Node>, AllocError>
    ensures { IfOk result (λ v. values.now.items ≡ v.items) }
{
    let mut clones = Vec::with_capacity(*values.allocator(), values.len())?;
    for value in values {
        clones.push(value.clone()?)?;
    }
    Ok(clones)
}

fn clone_of_paths(paths: &Vec<(Path, bool)>) -> Result<Vec<(Path, bool)>, AllocError>
    ensures { IfOk result (λ v. paths.now.items ≡ v.items) }
{
    let mut clones = Vec::with_capacity(*paths.allocator(), paths.len())?;
    for (path, descending) in paths {
        clones.push((path.clone()?, *descending))?;
    }
    Ok(clones)
}
