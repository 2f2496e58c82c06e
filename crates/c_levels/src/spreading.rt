//! Marks that spread along calls.

ghost use Rattle.std.specs.Prelude.{◌≡◌, map, string_bytes, OnOk, IfOk};
ghost use Rattle.std.specs.HashMap.{get_by_text};
ghost use Rattle.c_levels.specs.CodeSpread.{marked, all_marked, positions_from, listed, leads_by, IsSpread};

use c_lang::tree::TypedFn;
use std::alloc::{AllocError, Global};
use std::collections::HashMap;

// One position more is marked, where there is one without a mark.
fn mark(i: usize, marks: &mut Vec<bool>, work: &mut Vec<usize>) -> Result<(), AllocError>
    ensures { OnOk result (record { marks = marks.new.items; work = work.new.items }
        ≡ marked i (record { marks = marks.old.items; work = work.old.items })) }
{
    if i < marks.len() && !marks[i] {
        marks[i] = true;
        work.push(i)?;
    }
    Ok(())
}

// Each of these positions is marked.
fn mark_all(
    positions: &[usize],
    marks: &mut Vec<bool>,
    work: &mut Vec<usize>,
) -> Result<(), AllocError>
    ensures { OnOk result (record { marks = marks.new.items; work = work.new.items }
        ≡ all_marked positions.now (record { marks = marks.old.items; work = work.old.items })) }
{
    let mut rest = positions;
    'rest: while let Some((first, others)) = rest.split_first() {
        mark(*first, marks, work)?;
        rest = others;
    }
    Ok(())
}

// The positions of the marks.
fn marked_positions(alloc: Global, marks: &[bool]) -> Result<Vec<usize>, AllocError>
    ensures { IfOk result (λ ks. ks.items ≡ positions_from 0 marks.now) }
{
    let mut positions = Vec::new(alloc);
    let mut k = 0;
    let mut rest = marks;
    'rest: while let Some((first, others)) = rest.split_first() {
        if *first {
            positions.push(k)?;
        }
        k += 1;
        rest = others;
    }
    Ok(positions)
}

// Where a position leads to.
fn leads<'a>(k: usize, functions: &[TypedFn], table: &'a HashMap<String, Vec<usize>>) -> &'a [usize]
    ensures { result.now ≡ leads_by (map (λ f. string_bytes f.name) functions.now)
        (λ q. listed (get_by_text table.now q)) k }
{
    if k >= functions.len() {
        return &[];
    }
    match table.get(functions[k].name.as_str()) {
        Some(positions) => positions,
        None => &[],
    }
}

/// Marks that spread from each function to those that call it, by a table of the positions of
/// callers. Each function is looked at once.
pub(crate) fn spread(
    alloc: Global,
    functions: &[TypedFn],
    table: &HashMap<String, Vec<usize>>,
    start: Vec<bool>,
) -> Result<Vec<bool>, AllocError>
    ensures { IfOk result
        (λ end. IsSpread (leads_by (map (λ f. string_bytes f.name) functions.now)
        (λ q. listed (get_by_text table.now q))) start.items end.items) }
{
    let mut marks = start;
    let mut work = marked_positions(alloc, &marks)?;
    'work: while let Some(k) = work.pop() {
        mark_all(leads(k, functions, table), &mut marks, &mut work)?;
    }
    Ok(marks)
}
