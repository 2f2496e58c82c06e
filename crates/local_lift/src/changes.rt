//! Rows that change, and rows by way of which others are reached.

ghost use Rattle.std.specs.Prelude.{◌≡◌, Bool, false, List, slice_index_or, IfOk};
ghost use Rattle.expression_lang.specs.declared.signatures.Binder as B;
ghost use Rattle.c_values.specs.Name.{Name, same_name};
ghost use Rattle.local_lift.specs.declared.rows.Row.{Row};
ghost use Rattle.local_lift.specs.CodeNames.{names};
ghost use Rattle.local_lift.specs.Live.{none, through};
ghost use Rattle.local_lift.specs.CodeRows.{marks, RowMoves, Moves, Matrix, MatrixAnd, IsAt, flags_of, row_at, with_meant, each_either, assigning, adding, removing, by_way, spreading};

use crate::names::{IsNone, IsThis};
use crate::rows::{Row, copy_of_row, either, has, row_of, without};
use expression_lang::Binder;
use std::alloc::{AllocError, Global};

// A row before a set of the local to an expression of these names.
fn assigned(
    alloc: Global,
    locals: &[Binder],
    name: &str,
    named: &Row,
    row: &Row,
) -> Result<Row, AllocError>
    ensures { IfOk result (λ r. (g : Name → Bool) → named.now.flags.items ≡ marks g locals.now →
        RowMoves locals.now (assigning name.now (names locals.now) g) row.now.flags.items
        r.flags.items) }
{
    let kept = without(alloc, locals, name, row)?;
    if has(locals, name, row) {
        either(alloc, named, &kept)
    } else {
        Ok(kept)
    }
}

/// Rows before a set of the local to an expression of these names.
pub(crate) fn all_assigned(
    alloc: Global,
    locals: &[Binder],
    name: &str,
    named: &Row,
    rows: Vec<Row>,
) -> Result<Vec<Row>, AllocError>
    ensures { IfOk result (λ after. (g : Name → Bool) →
        named.now.flags.items ≡ marks g locals.now →
        Moves locals.now (assigning name.now (names locals.now) g) rows.items after.items) }
{
    let mut after = Vec::new(alloc);
    for row in rows {
        after.push(assigned(alloc, locals, name, named, &row)?)?;
    }
    Ok(after)
}

/// Rows with these names added.
pub(crate) fn all_added(alloc: Global, named: &Row, rows: Vec<Row>) -> Result<Vec<Row>, AllocError>
    ensures { IfOk result (λ after. (bs : List B.Binder) (g : Name → Bool) →
        named.now.flags.items ≡ marks g bs → Moves bs (adding g) rows.items after.items) }
{
    let mut after = Vec::new(alloc);
    for row in rows {
        after.push(either(alloc, named, &row)?)?;
    }
    Ok(after)
}

/// Rows without a name.
pub(crate) fn all_removed(
    alloc: Global,
    locals: &[Binder],
    name: &str,
    rows: Vec<Row>,
) -> Result<Vec<Row>, AllocError>
    ensures { IfOk result (λ after.
        Moves locals.now (removing name.now) rows.items after.items) }
{
    let mut after = Vec::new(alloc);
    for row in rows {
        after.push(without(alloc, locals, name, &row)?)?;
    }
    Ok(after)
}

/// Copies.
#[tactic(auto, using(crate::proofs::RowLaws::flags_push))]
pub(crate) fn copies_of_rows(alloc: Global, rows: &[Row]) -> Result<Vec<Row>, AllocError>
    ensures { IfOk result (λ copies. flags_of copies.items ≡ flags_of rows.now) }
{
    let mut copies = Vec::new(alloc);
    let mut rest = rows;
    'along: while let Some((row, others)) = rest.split_first() {
        copies.push(copy_of_row(alloc, row)?)?;
        rest = others;
    }
    Ok(copies)
}

/// For each of two rows the locals of either.
#[tactic(auto, using(crate::proofs::RowLaws::flags_push))]
pub(crate) fn all_either(
    alloc: Global,
    lefts: Vec<Row>,
    rights: Vec<Row>,
) -> Result<Vec<Row>, AllocError>
    ensures { IfOk result (λ after. flags_of after.items
        ≡ each_either lefts.items rights.items) }
{
    let mut after = Vec::new(alloc);
    let mut left = lefts.as_slice();
    let mut right = rights.as_slice();
    'along: while let Some((first, others)) = left.split_first() {
        let Some((second, rest)) = right.split_first() else {
            return Ok(after);
        };
        after.push(either(alloc, first, second)?)?;
        left = others;
        right = rest;
    }
    Ok(after)
}

/// A row for each local, of itself alone, and then a row of none.
pub(crate) fn single_rows(alloc: Global, locals: &[Binder]) -> Result<Vec<Row>, AllocError>
    ensures { IfOk result (λ rows. MatrixAnd locals.now same_name none locals.now rows.items) }
{
    let mut rows = Vec::new(alloc);
    let mut rest = locals;
    'along: while let Some((local, others)) = rest.split_first() {
        let name = local.name.as_str();
        rows.push(row_of(alloc, locals, &IsThis { name })?)?;
        rest = others;
    }
    rows.push(row_of(alloc, locals, &IsNone)?)?;
    Ok(rows)
}

// Whether the local at a position is meant.
fn flag_at(row: &Row, k: usize) -> bool
    ensures { result ≡ slice_index_or row.now.flags.items k false }
{
    if k < row.flags.len() {
        row.flags[k]
    } else {
        false
    }
}

// A copy of the row at a position.
fn copy_at(alloc: Global, rows: &[Row], k: usize) -> Result<Row, AllocError>
    ensures { IfOk result (λ row. row.flags.items ≡ row_at k rows.now) }
{
    if k < rows.len() {
        copy_of_row(alloc, &rows[k])
    } else {
        Ok(Row {
            flags: Vec::new(alloc),
        })
    }
}

// Rows, those that mean the local at a position with what it leads to.
fn all_by_way(alloc: Global, k: usize, way: &Row, rows: Vec<Row>) -> Result<Vec<Row>, AllocError>
    ensures { IfOk result (λ after. (bs : List B.Binder) (x : Name) (w : Name → Bool) →
        IsAt k bs x →
        way.now.flags.items ≡ marks w bs → Moves bs (by_way x w) rows.items after.items) }
{
    let mut after = Vec::new(alloc);
    for row in rows {
        after.push(with_way(alloc, k, way, row)?)?;
    }
    Ok(after)
}

fn with_way(alloc: Global, k: usize, way: &Row, row: Row) -> Result<Row, AllocError>
    ensures { IfOk result (λ after. (bs : List B.Binder) (x : Name) (w : Name → Bool) →
        IsAt k bs x →
        way.now.flags.items ≡ marks w bs →
        RowMoves bs (by_way x w) row.flags.items after.flags.items) }
{
    if !flag_at(&row, k) {
        return Ok(row);
    }
    either(alloc, &row, way)
}

/// What names lead to in steps, where this is what they lead to in one.
pub(crate) fn reached(
    alloc: Global,
    locals: &[Binder],
    rows: Vec<Row>,
) -> Result<Vec<Row>, AllocError>
    ensures { IfOk result (λ after. (leads : Name → Name → Bool) →
        Matrix locals.now leads locals.now rows.items →
        Matrix locals.now (through (names locals.now) leads) locals.now after.items) }
{
    let mut steps = rows;
    for k in 0..locals.len() {
        let way = copy_at(alloc, steps.as_slice(), k)?;
        steps = all_by_way(alloc, k, &way, steps)?;
    }
    Ok(steps)
}

// A row with what the locals that it means lead to.
fn with_meant(alloc: Global, reached: &[Row], row: &Row) -> Result<Row, AllocError>
    ensures { IfOk result (λ all.
        all.flags.items ≡ with_meant row.now.flags.items reached.now row.now.flags.items) }
{
    let mut all = copy_of_row(alloc, row)?;
    let mut left = row.flags.as_slice();
    let mut right = reached;
    'along: while let Some((flag, others)) = left.split_first() {
        let Some((reach, rest)) = right.split_first() else {
            return Ok(all);
        };
        if *flag {
            all = either(alloc, &all, reach)?;
        }
        left = others;
        right = rest;
    }
    Ok(all)
}

/// A row before a loop of which these are looked at, which leads so.
pub(crate) fn spread(
    alloc: Global,
    reached: &[Row],
    own: &Row,
    row: &Row,
) -> Result<Row, AllocError>
    ensures { IfOk result (λ after. (bs : List B.Binder) (leads : Name → Name → Bool) (g : Name →
        Bool) →
        Matrix bs leads bs reached.now → own.now.flags.items ≡ marks g bs →
        RowMoves bs (spreading (names bs) leads g) row.now.flags.items after.flags.items) }
{
    let from = either(alloc, own, row)?;
    with_meant(alloc, reached, &from)
}

/// Rows before a loop of which these are looked at, which leads so.
pub(crate) fn all_spread(
    alloc: Global,
    reached: &[Row],
    own: &Row,
    rows: Vec<Row>,
) -> Result<Vec<Row>, AllocError>
    ensures { IfOk result (λ after. (bs : List B.Binder) (leads : Name → Name → Bool) (g : Name →
        Bool) →
        Matrix bs leads bs reached.now → own.now.flags.items ≡ marks g bs →
        Moves bs (spreading (names bs) leads g) rows.items after.items) }
{
    let mut after = Vec::new(alloc);
    for row in rows {
        after.push(spread(alloc, reached, own, &row)?)?;
    }
    Ok(after)
}
