//! Types, written.
ghost use Rattle.std.specs.Prelude.{◌≡◌, OnOk};
ghost use Rattle.c_values.specs.CodeTypes.{type_of};
ghost use Rattle.ac_sx.specs.Writing.{written};
ghost use Rattle.expression_text.specs.Words.{type_head_word, StructHead};
ghost use Rattle.expression_text.specs.TypeText.{type_tree};
ghost use Rattle.expression_text.specs.CodeWriting.{type_end, type_ends};

use crate::parts::{begin_list, natural_into};
use crate::words::int_type_word;
use ac_sx::TreeWriter;
use c_values::CType;
use std::alloc::{AllocError, Global};

/// Writes a type. It goes down the type by a loop, since a text may nest types deeply.
#[tactic(auto, using(crate::proofs::Writing::type_ends_push))]
pub fn type_into<W: TreeWriter>(alloc: Global, out: &mut W, t: &CType) -> Result<(), AllocError>
    ensures { OnOk result (W.state out.new
        ≡ written W.writing (W.state out.old) (type_tree (type_of t.now))) }
{
    let mut lists = Vec::new(alloc);
    let mut inner = t;
    'down: loop {
        match inner {
            CType::Ptr(next) => {
                begin_list(out, "ptr")?;
                lists.push(inner)?;
                inner = &**next;
            }
            CType::Array(next, _length) => {
                begin_list(out, "array")?;
                lists.push(inner)?;
                inner = &**next;
            }
            CType::Int(integer) => {
                out.atom(int_type_word(*integer))?;
                return ends_into(out, lists);
            }
            CType::Void => {
                out.atom("void")?;
                return ends_into(out, lists);
            }
            CType::Struct(name) => {
                struct_into(out, name.as_str())?;
                return ends_into(out, lists);
            }
        }
    }
}

fn struct_into<W: TreeWriter>(out: &mut W, name: &str) -> Result<(), AllocError>
    ensures { OnOk result (W.state out.new
        ≡ W.writing.left (W.writing.put (W.writing.put (W.writing.entered (W.state out.old))
        (type_head_word StructHead)) name.now)) }
{
    begin_list(out, "struct")?;
    out.atom(name)?;
    out.leave()
}

// The ends of the lists of these types, the outermost first.
#[tactic(auto, using(crate::proofs::Writing::type_ends_push))]
fn ends_into<W: TreeWriter>(out: &mut W, lists: Vec<&CType>) -> Result<(), AllocError>
    ensures { OnOk result (W.state out.new
        ≡ type_ends W.writing lists.entry.items (W.state out.old)) }
{
    let mut left = lists;
    'back: while let Some(list) = left.pop() {
        end_into(out, list)?;
    }
    Ok(())
}

// The end of the list of a type.
fn end_into<W: TreeWriter>(out: &mut W, t: &CType) -> Result<(), AllocError>
    ensures { OnOk result (W.state out.new
        ≡ type_end W.writing (type_of t.now) (W.state out.old)) }
{
    if let CType::Array(_inner, length) = t {
        natural_into(out, u64::from(*length))?;
    }
    out.leave()
}
