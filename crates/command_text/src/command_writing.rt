//! Commands, written.
ghost use Rattle.std.specs.Prelude.{◌≡◌, ◌+◌, ◌<◌, IfOk, OnOk, map, option_map, string_bytes};
ghost use Rattle.ac_sx.specs.Tree.{Atom, Node, no_trees, more};
ghost use Rattle.ac_sx.specs.Writing.{written, all_written};
ghost use Rattle.c_values.specs.CodeTypes.{type_of};
ghost use Rattle.expression_lang.specs.CodeExpression.{exp_of, path_of};
ghost use Rattle.expression_text.specs.ExpText.{exp_tree};
ghost use Rattle.expression_text.specs.Lists.{trees_for};
ghost use Rattle.simpl_lang.specs.declared.command.Simpl.{size-Simpl};
ghost use Rattle.simpl_lang.specs.Command as plain;
ghost use Rattle.simpl_lang.specs.CodeCommand.{guard_kind_of, condition_of, simpl_of};
ghost use Rattle.command_text.specs.declared.heads.CommandHead.TheVariants as H;
ghost use Rattle.command_text.specs.CommandText.{command_word, guard_word, condition_tree, command_tree, sequence_parts};
ghost use Rattle.command_text.specs.CodeWriting.{command_goes_on, LastIsSmaller};

use crate::conditions::{conditions_into, guard_word};
use crate::heads::CommandHead;
use crate::targets::target_into;
use ac_sx::TreeWriter;
use c_values::CType;
use expression_lang::{Exp, Path};
use expression_text::{begin_list, exp_into, exps_into, path_into, type_into};
use simpl_lang::{Condition, Simpl};
use std::alloc::{AllocError, Global};

/// Writes a command. It goes along the last commands by a loop, since a text may have long
/// sequences.
#[cycle(written)]
#[tactic(auto, using(program_text::proofs::Writing::lists_left_push))]
pub fn command_into<W: TreeWriter>(alloc: Global, out: &mut W, c: &Simpl) -> Result<(), AllocError>
    ensures { OnOk result (W.state out.new
        ≡ written W.writing (W.state out.old) (command_tree (simpl_of c.now))) }
{
    let mut lists = Vec::new(alloc);
    let mut rest = c;
    'along: while let Some(last) = front_into(alloc, out, rest)? {
        lists.push(rest)?;
        rest = last;
    }
    'back: while let Some(_list) = lists.pop() {
        out.leave()?;
    }
    Ok(())
}

// Writes a command as far as its last command, where it has one.
#[cycle(written)]
#[tactic(auto, using(crate::proofs::CommandLaws::seq_text))]
fn front_into<'a, W: TreeWriter>(
    alloc: Global,
    out: &mut W,
    c: &'a Simpl,
) -> Result<Option<&'a Simpl>, AllocError>
    ensures same { IfOk result (λ last. command_goes_on W.writing last (W.state out.new)
        ≡ written W.writing (W.state out.old) (command_tree (simpl_of c.now))) }
    ensures smaller { IfOk result (λ last. LastIsSmaller last (size-Simpl c.now)) }
{
    match c {
        Simpl::Skip => {
            out.atom("skip")?;
            Ok(None)
        }
        Simpl::Throw => {
            out.atom("throw")?;
            Ok(None)
        }
        Simpl::Set(name, value) => {
            set_into(alloc, out, name.as_str(), value)?;
            Ok(None)
        }
        Simpl::SetGlobal(name, path, value) => {
            gset_into(alloc, out, name.as_str(), path, value)?;
            Ok(None)
        }
        Simpl::Store(ty, pointer, path, value) => {
            store_into(alloc, out, ty, pointer, path, value)?;
            Ok(None)
        }
        Simpl::Pick(name) => {
            pick_into(out, name.as_str())?;
            Ok(None)
        }
        Simpl::Call(target, function, arguments) => {
            call_into(alloc, out, target, function.as_str(), arguments)?;
            Ok(None)
        }
        Simpl::Seq(first, last) => {
            begin_list(out, CommandHead::Seq.word())?;
            command_into(alloc, out, first)?;
            Ok(Some(seqs_into(alloc, out, last)?))
        }
        Simpl::Cond(test, first, last) => {
            begin_list(out, CommandHead::Cond.word())?;
            exp_into(alloc, out, test)?;
            command_into(alloc, out, first)?;
            Ok(Some(&**last))
        }
        Simpl::Guard(condition, last) => {
            guard_front(alloc, out, condition)?;
            Ok(Some(&**last))
        }
        Simpl::Catch(first, last) => {
            begin_list(out, CommandHead::Catch.word())?;
            command_into(alloc, out, first)?;
            Ok(Some(&**last))
        }
        Simpl::While(conditions, test, last) => {
            while_front(alloc, out, conditions, test)?;
            Ok(Some(&**last))
        }
    }
}

// Writes the commands of a sequence that goes on with this one, but for the last, and gives that.
#[cycle(written)]
fn seqs_into<'a, W: TreeWriter>(
    alloc: Global,
    out: &mut W,
    c: &'a Simpl,
) -> Result<&'a Simpl, AllocError>
    ensures same { IfOk result (λ last.
        written W.writing (W.state out.new) (command_tree (simpl_of last.now))
        ≡ all_written W.writing (W.state out.old) (sequence_parts (simpl_of c.now))) }
    ensures smaller { IfOk result (λ last. size-Simpl last.now < size-Simpl c.now + 1) }
{
    let mut rest = c;
    'seqs: while let Simpl::Seq(first, last) = rest {
        command_into(alloc, out, first)?;
        rest = &**last;
    }
    Ok(rest)
}

fn set_into<W: TreeWriter>(
    alloc: Global,
    out: &mut W,
    name: &str,
    value: &Exp,
) -> Result<(), AllocError>
    ensures { OnOk result (W.state out.new ≡ written W.writing (W.state out.old)
        (command_tree (plain.Set name.now (exp_of value.now)))) }
{
    begin_list(out, CommandHead::Set.word())?;
    out.atom(name)?;
    exp_into(alloc, out, value)?;
    out.leave()
}

fn gset_into<W: TreeWriter>(
    alloc: Global,
    out: &mut W,
    name: &str,
    path: &Path,
    value: &Exp,
) -> Result<(), AllocError>
    ensures { OnOk result (W.state out.new ≡ written W.writing (W.state out.old)
        (command_tree (plain.SetGlobal name.now (path_of path.now) (exp_of value.now)))) }
{
    begin_list(out, CommandHead::Gset.word())?;
    out.atom(name)?;
    path_into(alloc, out, path)?;
    exp_into(alloc, out, value)?;
    out.leave()
}

fn store_into<W: TreeWriter>(
    alloc: Global,
    out: &mut W,
    ty: &CType,
    pointer: &Exp,
    path: &Path,
    value: &Exp,
) -> Result<(), AllocError>
    ensures { OnOk result (W.state out.new ≡ written W.writing (W.state out.old)
        (command_tree (plain.Store (type_of ty.now) (exp_of pointer.now) (path_of path.now)
        (exp_of value.now)))) }
{
    begin_list(out, CommandHead::Store.word())?;
    type_into(alloc, out, ty)?;
    exp_into(alloc, out, pointer)?;
    path_into(alloc, out, path)?;
    exp_into(alloc, out, value)?;
    out.leave()
}

fn pick_into<W: TreeWriter>(out: &mut W, name: &str) -> Result<(), AllocError>
    ensures { OnOk result (W.state out.new
        ≡ written W.writing (W.state out.old) (command_tree (plain.Pick name.now))) }
{
    begin_list(out, CommandHead::Pick.word())?;
    out.atom(name)?;
    out.leave()
}

fn call_into<W: TreeWriter>(
    alloc: Global,
    out: &mut W,
    target: &Option<String>,
    function: &str,
    arguments: &[Exp],
) -> Result<(), AllocError>
    ensures { OnOk result (W.state out.new ≡ written W.writing (W.state out.old) (command_tree
        (plain.Call (option_map string_bytes target.now) function.now
        (map exp_of arguments.now)))) }
{
    begin_list(out, CommandHead::Call.word())?;
    target_into(out, target)?;
    out.atom(function)?;
    exps_into(alloc, out, arguments)?;
    out.leave()
}

// A guard as far as its command.
fn guard_front<W: TreeWriter>(
    alloc: Global,
    out: &mut W,
    condition: &Condition,
) -> Result<(), AllocError>
    ensures { OnOk result (W.state out.new ≡ all_written W.writing
        (W.writing.entered (W.state out.old))
        (more (Atom (command_word H.Guard))
        (more (Atom (guard_word (guard_kind_of condition.now.kind)))
        (more (exp_tree (exp_of condition.now.exp)) no_trees)))) }
{
    begin_list(out, CommandHead::Guard.word())?;
    out.atom(guard_word(condition.kind))?;
    exp_into(alloc, out, &condition.exp)
}

// A loop as far as its command.
fn while_front<W: TreeWriter>(
    alloc: Global,
    out: &mut W,
    conditions: &[Condition],
    test: &Exp,
) -> Result<(), AllocError>
    ensures { OnOk result (W.state out.new ≡ all_written W.writing
        (W.writing.entered (W.state out.old))
        (more (Atom (command_word H.While))
        (more (Node (trees_for condition_tree (map condition_of conditions.now)))
        (more (exp_tree (exp_of test.now)) no_trees)))) }
{
    begin_list(out, CommandHead::While.word())?;
    conditions_into(alloc, out, conditions)?;
    exp_into(alloc, out, test)
}
