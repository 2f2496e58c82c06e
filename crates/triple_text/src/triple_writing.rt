//! Triples, written.
ghost use Rattle.std.specs.Prelude.{◌≡◌, OnOk, map};
ghost use Rattle.ac_sx.specs.Writing.{written, all_written};
ghost use Rattle.expression_text.specs.Lists.{trees_for};
ghost use Rattle.triple_lang.specs.CodeDeriv.{triple_of};
ghost use Rattle.triple_text.specs.TripleText.{triple_tree, triples_tree};

use crate::deriv_writing::deriv_into;
use crate::logicals::logicals_into;
use ac_sx::TreeWriter;
use expression_text::{begin_list, exp_into};
use std::alloc::{AllocError, Global};
use triple_lang::Triple;

/// Writes triples.
pub(crate) fn triples_into<W: TreeWriter>(
    alloc: Global,
    out: &mut W,
    triples: &[Triple],
) -> Result<(), AllocError>
    ensures { OnOk result (W.state out.new ≡ written W.writing (W.state out.old)
        (triples_tree (map triple_of triples.now))) }
{
    begin_list(out, "triples")?;
    out.atom("1")?;
    each_triple_into(alloc, out, triples)?;
    out.leave()
}

fn each_triple_into<W: TreeWriter>(
    alloc: Global,
    out: &mut W,
    triples: &[Triple],
) -> Result<(), AllocError>
    ensures { OnOk result (W.state out.new ≡ all_written W.writing (W.state out.old)
        (trees_for triple_tree (map triple_of triples.now))) }
{
    let mut rest = triples;
    'triples: while let Some((triple, others)) = rest.split_first() {
        triple_into(alloc, out, triple)?;
        rest = others;
    }
    Ok(())
}

/// Writes a triple.
pub(crate) fn triple_into<W: TreeWriter>(
    alloc: Global,
    out: &mut W,
    triple: &Triple,
) -> Result<(), AllocError>
    ensures { OnOk result (W.state out.new
        ≡ written W.writing (W.state out.old) (triple_tree (triple_of triple.now))) }
{
    begin_list(out, "triple")?;
    out.atom(triple.function.as_str())?;
    logicals_into(out, &triple.logicals)?;
    exp_into(alloc, out, &triple.before)?;
    exp_into(alloc, out, &triple.after)?;
    deriv_into(alloc, out, &triple.derivation)?;
    out.leave()
}
