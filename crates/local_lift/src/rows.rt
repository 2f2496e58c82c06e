//! Rows: for each of a function's locals whether it is meant.

ghost use Rattle.std.specs.Prelude.{◌≡◌, ◌||◌, IfOk};
ghost use Rattle.local_lift.specs.CodeRows.{marks, either_row, past_row, row_without, row_has};

use expression_lang::Binder;
use monad_lang::NameTest;
use std::alloc::{AllocError, Global};

/// Which of a function's locals are meant.
#[derive(Drop)]
pub(crate) struct Row {
    pub(crate) flags: Vec<bool>,
}

/// The locals that pass a test.
pub(crate) fn row_of<T: NameTest>(
    alloc: Global,
    locals: &[Binder],
    test: &T,
) -> Result<Row, AllocError>
    ensures { IfOk result (λ row. row.flags.items ≡ marks (T.holds test.now) locals.now) }
{
    let mut flags = Vec::new(alloc);
    let mut rest = locals;
    'along: while let Some((first, others)) = rest.split_first() {
        flags.push(test.holds(first.name.as_str()))?;
        rest = others;
    }
    Ok(Row { flags })
}

/// A copy.
pub(crate) fn copy_of_row(alloc: Global, row: &Row) -> Result<Row, AllocError>
    ensures { IfOk result (λ copy. copy.flags.items ≡ row.now.flags.items) }
{
    let flags = Vec::from_slice(alloc, row.flags.as_slice())?;
    Ok(Row { flags })
}

/// The locals of one of two rows.
pub(crate) fn either(alloc: Global, row: &Row, other: &Row) -> Result<Row, AllocError>
    ensures { IfOk result (λ r.
        r.flags.items ≡ either_row row.now.flags.items other.now.flags.items) }
{
    let mut flags = Vec::new(alloc);
    let mut left = row.flags.as_slice();
    let mut right = other.flags.as_slice();
    'along: while let Some((first, others)) = left.split_first() {
        let Some((second, rest)) = right.split_first() else {
            return Ok(Row { flags });
        };
        flags.push(*first || *second)?;
        left = others;
        right = rest;
    }
    Ok(Row { flags })
}

/// The locals of a row, and those of another that a third doesn't have.
pub(crate) fn past(alloc: Global, row: &Row, other: &Row, assigned: &Row) -> Result<Row, AllocError>
    ensures { IfOk result (λ r. r.flags.items
        ≡ past_row row.now.flags.items other.now.flags.items assigned.now.flags.items) }
{
    let mut flags = Vec::new(alloc);
    let mut left = row.flags.as_slice();
    let mut right = other.flags.as_slice();
    let mut cut = assigned.flags.as_slice();
    'along: while let Some((first, others)) = left.split_first() {
        let Some((second, rest)) = right.split_first() else {
            return Ok(Row { flags });
        };
        let Some((third, more)) = cut.split_first() else {
            return Ok(Row { flags });
        };
        flags.push(*first || (*second && !*third))?;
        left = others;
        right = rest;
        cut = more;
    }
    Ok(Row { flags })
}

/// The locals of a row but for those of a name.
pub(crate) fn without(
    alloc: Global,
    locals: &[Binder],
    name: &str,
    row: &Row,
) -> Result<Row, AllocError>
    ensures { IfOk result (λ r.
        r.flags.items ≡ row_without name.now locals.now row.now.flags.items) }
{
    let mut flags = Vec::new(alloc);
    let mut left = locals;
    let mut right = row.flags.as_slice();
    'along: while let Some((local, others)) = left.split_first() {
        let Some((flag, rest)) = right.split_first() else {
            return Ok(Row { flags });
        };
        flags.push(local.name.as_str() != name && *flag)?;
        left = others;
        right = rest;
    }
    Ok(Row { flags })
}

/// Whether the local of a name is meant.
pub(crate) fn has(locals: &[Binder], name: &str, row: &Row) -> bool
    ensures { result ≡ row_has name.now locals.now row.now.flags.items }
{
    let mut left = locals;
    let mut right = row.flags.as_slice();
    'along: while let Some((local, others)) = left.split_first() {
        let Some((flag, rest)) = right.split_first() else {
            return false;
        };
        if name == local.name.as_str() {
            return *flag;
        }
        left = others;
        right = rest;
    }
    false
}
