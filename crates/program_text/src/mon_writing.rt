//! Programs, written.
ghost use Rattle.std.specs.Prelude.{◌≡◌, ◌+◌, ◌<◌, IfOk, OnOk, map};
ghost use Rattle.ac_sx.specs.Tree.{Atom, Node, no_trees, more};
ghost use Rattle.ac_sx.specs.Writing.{written, all_written};
ghost use Rattle.c_values.specs.CodeTypes.{type_of};
ghost use Rattle.expression_lang.specs.CodeExpression.{exp_of, path_of, kind_of};
ghost use Rattle.expression_text.specs.TypeText.{type_tree};
ghost use Rattle.expression_text.specs.ExpText.{exp_tree, step_trees};
ghost use Rattle.expression_text.specs.Lists.{trees_for};
ghost use Rattle.monad_lang.specs.declared.program.Mon.{size-Mon};
ghost use Rattle.monad_lang.specs.Program as plain;
ghost use Rattle.monad_lang.specs.CodeProgram.{place_of, start_of, mon_of};
ghost use Rattle.program_text.specs.declared.heads.MonHead.TheVariants as H;
ghost use Rattle.program_text.specs.MonText.{mon_word, mon_tree, sequence_parts, write_tree, start_tree};
ghost use Rattle.program_text.specs.CodeWriting.{place_parts, mon_goes_on, LastIsSmaller};

use crate::heads::MonHead;
use crate::kinds::kind_into;
use ac_sx::TreeWriter;
use c_values::CType;
use expression_lang::{Exp, Kind, Path};
use expression_text::{begin_list, exp_into, exps_into, names_into, path_into, type_into};
use monad_lang::{Mon, Place, Start};
use std::alloc::{AllocError, Global};

/// Writes a program. It goes along the last programs by a loop, since a text may have long
/// sequences.
#[cycle(written)]
#[tactic(auto, using(crate::proofs::Writing::lists_left_push))]
pub fn mon_into<W: TreeWriter>(alloc: Global, out: &mut W, m: &Mon) -> Result<(), AllocError>
    ensures { OnOk result (W.state out.new
        ≡ written W.writing (W.state out.old) (mon_tree (mon_of m.now))) }
{
    let mut lists = Vec::new(alloc);
    let mut rest = m;
    'along: while let Some(last) = front_into(alloc, out, rest)? {
        lists.push(rest)?;
        rest = last;
    }
    'back: while let Some(_list) = lists.pop() {
        out.leave()?;
    }
    Ok(())
}

// Writes a program as far as its last program, where it has one.
#[cycle(written)]
fn front_into<'a, W: TreeWriter>(
    alloc: Global,
    out: &mut W,
    m: &'a Mon,
) -> Result<Option<&'a Mon>, AllocError>
    ensures same { IfOk result (λ last. mon_goes_on W.writing last (W.state out.new)
        ≡ written W.writing (W.state out.old) (mon_tree (mon_of m.now))) }
    ensures smaller { IfOk result (λ last. LastIsSmaller last (size-Mon m.now)) }
{
    match m {
        Mon::Ret(values) => {
            ret_into(alloc, out, values)?;
            Ok(None)
        }
        Mon::Guard(condition) => {
            guard_into(alloc, out, condition)?;
            Ok(None)
        }
        Mon::Write(place, value) => {
            write_into(alloc, out, place, value)?;
            Ok(None)
        }
        Mon::Call(function, arguments) => {
            call_into(alloc, out, function.as_str(), arguments)?;
            Ok(None)
        }
        Mon::Pick(kind) => {
            pick_into(out, *kind)?;
            Ok(None)
        }
        Mon::Bind(first, names, last) => {
            begin_list(out, MonHead::Do.word())?;
            names_into(out, names)?;
            mon_into(alloc, out, first)?;
            Ok(Some(binds_into(alloc, out, last)?))
        }
        Mon::If(test, first, last) => {
            begin_list(out, MonHead::If.word())?;
            exp_into(alloc, out, test)?;
            mon_into(alloc, out, first)?;
            Ok(Some(&**last))
        }
        Mon::Loop(starts, guard, test, last) => {
            loop_front(alloc, out, starts, guard, test)?;
            Ok(Some(&**last))
        }
    }
}

// Writes the programs of a sequence that goes on with this one, but for the last, and gives that.
#[cycle(written)]
fn binds_into<'a, W: TreeWriter>(
    alloc: Global,
    out: &mut W,
    m: &'a Mon,
) -> Result<&'a Mon, AllocError>
    ensures same { IfOk result (λ last. written W.writing (W.state out.new)
        (mon_tree (mon_of last.now))
        ≡ all_written W.writing (W.state out.old) (sequence_parts (mon_of m.now))) }
    ensures smaller { IfOk result (λ last. size-Mon last.now < size-Mon m.now + 1) }
{
    let mut rest = m;
    'binds: while let Mon::Bind(first, names, last) = rest {
        names_into(out, names)?;
        mon_into(alloc, out, first)?;
        rest = &**last;
    }
    Ok(rest)
}

fn ret_into<W: TreeWriter>(alloc: Global, out: &mut W, values: &[Exp]) -> Result<(), AllocError>
    ensures { OnOk result (W.state out.new ≡ written W.writing (W.state out.old)
        (mon_tree (plain.Ret (map exp_of values.now)))) }
{
    begin_list(out, MonHead::Ret.word())?;
    exps_into(alloc, out, values)?;
    out.leave()
}

fn guard_into<W: TreeWriter>(alloc: Global, out: &mut W, condition: &Exp) -> Result<(), AllocError>
    ensures { OnOk result (W.state out.new ≡ written W.writing (W.state out.old)
        (mon_tree (plain.Guard (exp_of condition.now)))) }
{
    begin_list(out, MonHead::Guard.word())?;
    exp_into(alloc, out, condition)?;
    out.leave()
}

fn call_into<W: TreeWriter>(
    alloc: Global,
    out: &mut W,
    function: &str,
    arguments: &[Exp],
) -> Result<(), AllocError>
    ensures { OnOk result (W.state out.new ≡ written W.writing (W.state out.old)
        (mon_tree (plain.Call function.now (map exp_of arguments.now)))) }
{
    begin_list(out, MonHead::Call.word())?;
    out.atom(function)?;
    exps_into(alloc, out, arguments)?;
    out.leave()
}

fn pick_into<W: TreeWriter>(out: &mut W, kind: Kind) -> Result<(), AllocError>
    ensures { OnOk result (W.state out.new ≡ written W.writing (W.state out.old)
        (mon_tree (plain.Pick (kind_of kind)))) }
{
    begin_list(out, MonHead::Pick.word())?;
    kind_into(out, kind)?;
    out.leave()
}

fn write_into<W: TreeWriter>(
    alloc: Global,
    out: &mut W,
    place: &Place,
    value: &Exp,
) -> Result<(), AllocError>
    ensures { OnOk result (W.state out.new ≡ written W.writing (W.state out.old)
        (write_tree (place_of place.now) (exp_of value.now))) }
{
    place_front(alloc, out, place)?;
    exp_into(alloc, out, value)?;
    out.leave()
}

// All but the value.
fn place_front<W: TreeWriter>(alloc: Global, out: &mut W, place: &Place) -> Result<(), AllocError>
    ensures { OnOk result (W.state out.new ≡ all_written W.writing
        (W.writing.entered (W.state out.old)) (place_parts (place_of place.now))) }
{
    match place {
        Place::Stored(ty, pointer, path) => {
            heap_front(alloc, out, MonHead::Store, ty, pointer, path)
        }
        Place::Written(ty, pointer, path) => {
            heap_front(alloc, out, MonHead::Write, ty, pointer, path)
        }
        Place::Global(name, path) => {
            begin_list(out, MonHead::Gset.word())?;
            out.atom(name.as_str())?;
            path_into(alloc, out, path)
        }
    }
}

fn heap_front<W: TreeWriter>(
    alloc: Global,
    out: &mut W,
    head: MonHead,
    ty: &CType,
    pointer: &Exp,
    path: &Path,
) -> Result<(), AllocError>
    ensures { OnOk result (W.state out.new ≡ all_written W.writing
        (W.writing.entered (W.state out.old))
        (more (Atom (mon_word head))
        (more (type_tree (type_of ty.now)) (more (exp_tree (exp_of pointer.now))
        (more (Node (step_trees (path_of path.now))) no_trees))))) }
{
    begin_list(out, head.word())?;
    type_into(alloc, out, ty)?;
    exp_into(alloc, out, pointer)?;
    path_into(alloc, out, path)
}

// A loop as far as its program.
fn loop_front<W: TreeWriter>(
    alloc: Global,
    out: &mut W,
    starts: &[Start],
    guard: &Exp,
    test: &Exp,
) -> Result<(), AllocError>
    ensures { OnOk result (W.state out.new ≡ all_written W.writing
        (W.writing.entered (W.state out.old))
        (more (Atom (mon_word H.Loop))
        (more (Node (trees_for start_tree (map start_of starts.now)))
        (more (exp_tree (exp_of guard.now)) (more (exp_tree (exp_of test.now)) no_trees))))) }
{
    begin_list(out, MonHead::Loop.word())?;
    starts_into(alloc, out, starts)?;
    exp_into(alloc, out, guard)?;
    exp_into(alloc, out, test)
}

fn starts_into<W: TreeWriter>(
    alloc: Global,
    out: &mut W,
    starts: &[Start],
) -> Result<(), AllocError>
    ensures { OnOk result (W.state out.new ≡ written W.writing (W.state out.old)
        (Node (trees_for start_tree (map start_of starts.now)))) }
{
    out.enter()?;
    let mut rest = starts;
    'starts: while let Some((start, others)) = rest.split_first() {
        start_into(alloc, out, start)?;
        rest = others;
    }
    out.leave()
}

fn start_into<W: TreeWriter>(alloc: Global, out: &mut W, start: &Start) -> Result<(), AllocError>
    ensures { OnOk result (W.state out.new
        ≡ written W.writing (W.state out.old) (start_tree (start_of start.now))) }
{
    out.enter()?;
    out.atom(start.name.as_str())?;
    exp_into(alloc, out, &start.exp)?;
    out.leave()
}
