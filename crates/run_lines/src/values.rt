//! Values of types, written. A value may be as deep as a type, so this takes no stack for its depth.

ghost use Rattle.std.specs.Prelude.{◌≡◌, ◌+◌, ◌<◌, ◌++◌, [], OnOk, IfNone, IfSome, unwrap_or};
ghost use Rattle.c_values.specs.CodeParts.{values_in};
ghost use Rattle.c_values.specs.CodeTypes.{type_of};
ghost use Rattle.c_values.specs.CodeValue.{value_of};
ghost use Rattle.c_values.specs.Layout.{Layout as Content, shape_of, type_of as shape_type};
ghost use Rattle.c_values.specs.Value.{Bits};
ghost use Rattle.ac_sx.specs.CodeWriter.{lists_behind, nodes_behind};
ghost use Rattle.ac_sx.specs.Tree.{nodes, no_trees, more};
ghost use Rattle.c_meaning.specs.CValue.{number_of_type};
ghost use Rattle.expression_text.specs.ExpText.{truth_word};
ghost use Rattle.memory_text.specs.ValueText.{value_tree, value_trees, parts_of};
ghost use Rattle.run_lines.specs.CodeRow.{row_in, rows_in};
ghost use Rattle.run_lines.specs.Shown.{shown, all_shown, value_text};

use crate::text::{push, push_number};
use c_values::{CType, Layout, Number, Value, Word, int, is_signed, nat};
use memory_text::{Types, types_of};
use std::alloc::{AllocError, Global};

/// The text of a value of a type, behind the lines so far.
pub(crate) fn push_value(
    alloc: Global,
    layout: &Layout,
    ty: &CType,
    value: &Value,
    lines: &mut Vec<u8>,
) -> Result<(), AllocError>
    ensures { OnOk result (lines.new.items
        ≡ lines.old.items ++ value_text layout.now (type_of ty.now) (value_of value.now)) }
{
    let mut rows = Vec::new(alloc);
    descend(layout, ty, value, &mut rows, lines)?;
    'rows: while let Some(row) = rows.pop() {
        match row.split() {
            None => push(lines, ")")?,
            Some((ty, value, rest)) => {
                push(lines, " ")?;
                rows.push(rest)?;
                descend(layout, ty, value, &mut rows, lines)?;
            }
        }
    }
    Ok(())
}

/// Writes a value as far as its first part without parts. What stands behind that is put aside, the innermost row last.
fn descend<'a>(
    layout: &'a Layout,
    ty: &'a CType,
    value: &'a Value,
    rows: &mut Vec<Row<'a>>,
    lines: &mut Vec<u8>,
) -> Result<(), AllocError>
    ensures text { OnOk result (lines.new.items ++ lists_behind (rows_in layout.now rows.new.items)
        ≡ (lines.old.items ++ value_text layout.now (type_of ty.now) (value_of value.now))
        ++ lists_behind (rows_in layout.now rows.old.items)) }
    ensures less { OnOk result (nodes_behind (rows_in layout.now rows.new.items)
        < nodes_behind (rows_in layout.now rows.old.items)
        + nodes (value_tree (shown (shape_of layout.now (type_of ty.now)) (value_of value.now)))) }
{
    let mut inner = value;
    let mut inner_type = ty;
    'inner: loop {
        match inner {
            Value::Word(word) => {
                push_number(lines, number_of(inner_type, *word))?;
                return Ok(());
            }
            Value::Number(number) => {
                push_number(lines, *number)?;
                return Ok(());
            }
            Value::Truth(truth) => {
                push(lines, truth_word(*truth))?;
                return Ok(());
            }
            Value::Parts(parts) => {
                push(lines, "(")?;
                let row = row_of(layout, inner_type, parts);
                let Some((first_type, first, rest)) = row.split() else {
                    push(lines, ")")?;
                    return Ok(());
                };
                rows.push(rest)?;
                inner = first;
                inner_type = first_type;
            }
        }
    }
}

// Values of types in a row: those from a place on.
#[derive(Clone, Copy)]
struct Row<'a> {
    types: Types<'a>,
    next: usize,
    values: &'a [Value],
}

impl<'a> Row<'a> {
    // The first value with its type, and those behind it.
    fn split(self) -> Option<(&'a CType, &'a Value, Row<'a>)>
        ensures some { IfSome result (λ (ty, value, rest). (l : Content) → row_in l self.entry
            ≡ more (value_tree (shown (shape_of l (type_of ty.now)) (value_of value.now)))
            (row_in l rest)) }
        ensures none { IfNone result ((l : Content) → row_in l self.entry ≡ no_trees) }
    {
        if self.next >= self.types.len() {
            return None;
        }
        let (value, others) = self.values.split_first()?;
        let rest = Row {
            types: self.types,
            next: self.next + 1,
            values: others,
        };
        Some((self.types.get(self.next), value, rest))
    }
}

// The parts of a value of a type.
fn row_of<'a>(layout: &'a Layout, ty: &'a CType, parts: &'a [Value]) -> Row<'a>
    ensures { row_in layout.now result ≡ value_trees (all_shown
        (unwrap_or (parts_of (shape_of layout.now (type_of ty.now))) []) (values_in parts.now)) }
{
    match types_of(layout, ty) {
        Some(types) => Row {
            types,
            next: 0,
            values: parts,
        },
        None => Row {
            types: Types::Members(&[]),
            next: 0,
            values: parts,
        },
    }
}

fn truth_word(truth: bool) -> &'static str
    ensures { result.now ≡ truth_word truth }
{
    if truth { "#t" } else { "#f" }
}

// The number that a word is at a type.
#[tactic(auto, using(crate::proofs::Structs::no_sign))]
fn number_of(ty: &CType, word: Word) -> Number
    ensures { (l : Content) → result
        ≡ number_of_type (shape_type (shape_of l (type_of ty.now))) (Bits word) }
{
    match ty {
        CType::Int(integer) => {
            if is_signed(*integer) {
                int(word)
            } else {
                nat(word)
            }
        }
        CType::Void | CType::Ptr(_) | CType::Struct(_) | CType::Array(_, _) => nat(word),
    }
}
