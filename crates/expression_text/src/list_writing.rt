//! Lists of expressions and of names, written.
ghost use Rattle.std.specs.Prelude.{◌≡◌, OnOk, map, string_bytes};
ghost use Rattle.ac_sx.specs.Writing.{written, all_written};
ghost use Rattle.expression_lang.specs.CodeExpression.{exp_of};
ghost use Rattle.expression_text.specs.Lists.{exp_trees, names_tree};

use crate::exp_writing::exp_into;
use ac_sx::TreeWriter;
use expression_lang::Exp;
use std::alloc::{AllocError, Global};

/// Writes these expressions, one after the other.
pub fn exps_into<W: TreeWriter>(alloc: Global, out: &mut W, exps: &[Exp]) -> Result<(), AllocError>
    ensures { OnOk result (W.state out.new
        ≡ all_written W.writing (W.state out.old) (exp_trees (map exp_of exps.now))) }
{
    let mut rest = exps;
    'exps: while let Some((exp, others)) = rest.split_first() {
        exp_into(alloc, out, exp)?;
        rest = others;
    }
    Ok(())
}

/// Writes the list of these names.
pub fn names_into<W: TreeWriter>(out: &mut W, names: &[String]) -> Result<(), AllocError>
    ensures { OnOk result (W.state out.new
        ≡ written W.writing (W.state out.old) (names_tree (map string_bytes names.now))) }
{
    out.enter()?;
    let mut rest = names;
    'names: while let Some((name, others)) = rest.split_first() {
        out.atom(name.as_str())?;
        rest = others;
    }
    out.leave()
}
