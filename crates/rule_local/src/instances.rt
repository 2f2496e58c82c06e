//! What a rule asks of a command and a program. One function for each rule.

ghost use Rattle.std.specs.Prelude.{◌≡◌, ◌↔◌, IsTrue, Some, map, string_bytes};
ghost use Rattle.std.specs.Option.{option_map};
ghost use Rattle.c_values.specs.CodeTypes.{type_of};
ghost use Rattle.expression_lang.specs.CodeExpression.{exp_of, path_of, kind_of};
ghost use Rattle.expression_lang.specs.Sort.{WordKind};
ghost use Rattle.simpl_lang.specs.CodeCommand.{condition_of, simpl_of};
ghost use Rattle.monad_lang.specs.Program as M;
ghost use Rattle.monad_lang.specs.CodeProgram.{mon_of};
ghost use Rattle.rule_local.specs.Table.{vars, vars_with, picked_kind, AreNone};
ghost use Rattle.rule_local.specs.Rule.{Seq, While};
ghost use Rattle.rule_local.specs.CodeRow as row;
ghost use Rattle.rule_local.specs.CodeRule.{rule_of, context_of};

use crate::carried::{carries_free, carries_needed};
use crate::expressions::{are_starts_of, are_vars, are_vars_with, are_zeros, is_conjunction};
use crate::name_lists::{are_unbound, is_none, is_only};
use crate::rule::{Context, Rule};
use c_values::CType;
use expression_lang::{Exp, Kind, Path, equal_types, same_exps};
use monad_lang::{Mon, Place, is_among};
use simpl_lang::{Condition, Simpl, kind_in};

/// Whether what a rule asks of a command, of a program and of what this gives holds: of the whole
/// body of a function, or of a part of one.
pub(crate) fn is_asked(
    rule: Rule,
    left: &Simpl,
    right: &Mon,
    outputs: &[String],
    is_whole: bool,
    context: Context<'_>,
) -> bool
    ensures { IsTrue result ↔ row.Asked (context_of context.entry) is_whole
        (map string_bytes outputs.now) (rule_of rule) (simpl_of left.now) (mon_of right.now) }
{
    fits(rule, left, right, outputs, is_whole, context) && hands_on(rule, left, right, outputs)
}

/// The same, but for the names that a part hands on.
pub(crate) fn fits(
    rule: Rule,
    left: &Simpl,
    right: &Mon,
    outputs: &[String],
    is_whole: bool,
    context: Context<'_>,
) -> bool
    ensures { IsTrue result ↔ row.Fits (context_of context.entry) is_whole
        (map string_bytes outputs.now) (rule_of rule) (simpl_of left.now) (mon_of right.now) }
{
    match rule {
        Rule::Skip => is_skip(left, right, outputs),
        Rule::Set => is_set(left, right, outputs),
        Rule::Dead => is_dead(left, right, outputs),
        Rule::Global => is_global(left, right, outputs),
        Rule::Memory => is_memory(left, right, outputs),
        Rule::Pick => is_pick(left, right, outputs, context),
        Rule::Seq => is_sequence(left, right),
        Rule::Cond => is_conditional(left, right),
        Rule::Guard => is_guard(left, right),
        Rule::While => is_loop(left, right, outputs),
        Rule::Call => is_call(left, right, outputs),
        Rule::Void => is_void_call(left, right, outputs),
        Rule::Start => is_start(right, is_whole, context),
    }
}

// Whether a part hands on all that it assigns and that is looked at behind it.
fn hands_on(rule: Rule, left: &Simpl, right: &Mon, outputs: &[String]) -> bool
    ensures { IsTrue result ↔ row.HandsOn (map string_bytes outputs.now) (rule_of rule)
        (simpl_of left.now) (mon_of right.now) }
{
    match rule {
        Rule::Seq => hands_on_in_sequence(left, right, outputs),
        Rule::While => hands_on_in_loop(left, right, outputs),
        _ => true,
    }
}

fn hands_on_in_sequence(left: &Simpl, right: &Mon, outputs: &[String]) -> bool
    ensures { IsTrue result ↔ row.HandsOn (map string_bytes outputs.now) Seq
        (simpl_of left.now) (mon_of right.now) }
{
    match left {
        Simpl::Seq(first, _) => match right {
            Mon::Bind(_, names, last) => carries_free(names, first, last),
            _ => true,
        },
        _ => true,
    }
}

fn hands_on_in_loop(left: &Simpl, right: &Mon, outputs: &[String]) -> bool
    ensures { IsTrue result ↔ row.HandsOn (map string_bytes outputs.now) While
        (simpl_of left.now) (mon_of right.now) }
{
    match left {
        Simpl::While(_, _, body) => match right {
            Mon::Bind(first, names, _) => carries_in_turns(names, body, outputs, first),
            _ => true,
        },
        _ => true,
    }
}

// Whether a loop's body hands on all that it assigns and that is looked at again or behind it.
fn carries_in_turns(names: &[String], command: &Simpl, outputs: &[String], m: &Mon) -> bool
    ensures { IsTrue result ↔ row.CarriesInTurns (map string_bytes names.now)
        (simpl_of command.now) (map string_bytes outputs.now) (mon_of m.now) }
{
    match m {
        Mon::Loop(_, guard, turn, body) => {
            carries_needed(names, command, guard, turn, body, outputs)
        }
        _ => true,
    }
}

fn is_skip(left: &Simpl, right: &Mon, outputs: &[String]) -> bool
    ensures { IsTrue result
        ↔ row.IsSkip (map string_bytes outputs.now) (simpl_of left.now) (mon_of right.now) }
{
    matches!(left, Simpl::Skip) && gives(right, outputs)
}

fn is_set(left: &Simpl, right: &Mon, outputs: &[String]) -> bool
    ensures { IsTrue result
        ↔ row.IsSet (map string_bytes outputs.now) (simpl_of left.now) (mon_of right.now) }
{
    match left {
        Simpl::Set(name, value) => {
            is_among(name.as_str(), outputs) && gives_with(right, name.as_str(), value, outputs)
        }
        _ => false,
    }
}

fn is_dead(left: &Simpl, right: &Mon, outputs: &[String]) -> bool
    ensures { IsTrue result
        ↔ row.IsDead (map string_bytes outputs.now) (simpl_of left.now) (mon_of right.now) }
{
    match left {
        Simpl::Set(name, _) => !is_among(name.as_str(), outputs) && gives(right, outputs),
        _ => false,
    }
}

fn is_global(left: &Simpl, right: &Mon, outputs: &[String]) -> bool
    ensures { IsTrue result
        ↔ row.IsGlobal (map string_bytes outputs.now) (simpl_of left.now) (mon_of right.now) }
{
    match left {
        Simpl::SetGlobal(name, path, value) => match right {
            Mon::Bind(first, names, last) => {
                is_global_write(first, name.as_str(), path, value)
                    && is_none(names)
                    && gives(last, outputs)
            }
            _ => false,
        },
        _ => false,
    }
}

fn is_memory(left: &Simpl, right: &Mon, outputs: &[String]) -> bool
    ensures { IsTrue result
        ↔ row.IsMemory (map string_bytes outputs.now) (simpl_of left.now) (mon_of right.now) }
{
    match left {
        Simpl::Store(ty, pointer, path, value) => match right {
            Mon::Bind(first, names, last) => {
                is_memory_write(first, ty, pointer, path, value)
                    && is_none(names)
                    && gives(last, outputs)
            }
            _ => false,
        },
        _ => false,
    }
}

fn is_pick(left: &Simpl, right: &Mon, outputs: &[String], context: Context<'_>) -> bool
    ensures { IsTrue result ↔ row.IsPick (context_of context.entry) (map string_bytes outputs.now)
        (simpl_of left.now) (mon_of right.now) }
{
    match left {
        Simpl::Pick(name) => match right {
            Mon::Bind(first, names, last) => {
                is_pick_of(first, kind_in(context.locals, name.as_str()))
                    && is_only(names, name.as_str())
                    && gives(last, outputs)
            }
            _ => false,
        },
        _ => false,
    }
}

fn is_sequence(left: &Simpl, right: &Mon) -> bool
    ensures { IsTrue result ↔ row.IsSeq (simpl_of left.now) (mon_of right.now) }
{
    match left {
        Simpl::Seq(_, _) => matches!(right, Mon::Bind(_, _, _)),
        _ => false,
    }
}

fn is_conditional(left: &Simpl, right: &Mon) -> bool
    ensures { IsTrue result ↔ row.IsCond (simpl_of left.now) (mon_of right.now) }
{
    match left {
        Simpl::Cond(test, _, _) => match right {
            Mon::If(other, _, _) => other.same(test),
            _ => false,
        },
        _ => false,
    }
}

fn is_guard(left: &Simpl, right: &Mon) -> bool
    ensures { IsTrue result ↔ row.IsGuard (simpl_of left.now) (mon_of right.now) }
{
    match left {
        Simpl::Guard(condition, _) => match right {
            Mon::Bind(first, names, _) => is_guard_of(first, &condition.exp) && is_none(names),
            _ => false,
        },
        _ => false,
    }
}

fn is_loop(left: &Simpl, right: &Mon, outputs: &[String]) -> bool
    ensures { IsTrue result
        ↔ row.IsWhile (map string_bytes outputs.now) (simpl_of left.now) (mon_of right.now) }
{
    match left {
        Simpl::While(conditions, test, _) => match right {
            Mon::Bind(first, names, last) => {
                is_loop_of(first, names, conditions, test) && gives(last, outputs)
            }
            _ => false,
        },
        _ => false,
    }
}

fn is_call(left: &Simpl, right: &Mon, outputs: &[String]) -> bool
    ensures { IsTrue result
        ↔ row.IsCall (map string_bytes outputs.now) (simpl_of left.now) (mon_of right.now) }
{
    match left {
        Simpl::Call(Some(name), function, arguments) => match right {
            Mon::Bind(first, names, last) => {
                is_call_of(first, function.as_str(), arguments)
                    && is_only(names, name.as_str())
                    && gives(last, outputs)
            }
            _ => false,
        },
        _ => false,
    }
}

fn is_void_call(left: &Simpl, right: &Mon, outputs: &[String]) -> bool
    ensures { IsTrue result
        ↔ row.IsVoid (map string_bytes outputs.now) (simpl_of left.now) (mon_of right.now) }
{
    match left {
        Simpl::Call(None, function, arguments) => match right {
            Mon::Bind(first, names, last) => {
                is_call_of(first, function.as_str(), arguments)
                    && is_none(names)
                    && gives(last, outputs)
            }
            _ => false,
        },
        _ => false,
    }
}

fn is_start(right: &Mon, is_whole: bool, context: Context<'_>) -> bool
    ensures { IsTrue result ↔ row.IsStart (context_of context.entry) is_whole (mon_of right.now) }
{
    match right {
        Mon::Bind(first, names, _) => { is_whole && begins_with_zeros(first, names, context) }
        _ => false,
    }
}

// Whether a program gives the outputs.
fn gives(m: &Mon, outputs: &[String]) -> bool
    ensures { IsTrue result ↔ (mon_of m.now ≡ M.Ret (vars (map string_bytes outputs.now))) }
{
    match m {
        Mon::Ret(values) => are_vars(values, outputs),
        _ => false,
    }
}

// Whether a program gives the outputs, with the value for the one that takes it.
fn gives_with(m: &Mon, taking: &str, value: &Exp, outputs: &[String]) -> bool
    ensures { IsTrue result ↔ (mon_of m.now
        ≡ M.Ret (vars_with taking.now (exp_of value.now) (map string_bytes outputs.now))) }
{
    match m {
        Mon::Ret(values) => are_vars_with(values, taking, value, outputs),
        _ => false,
    }
}

// Whether a program gives the zeros of locals, none of which is a parameter.
fn begins_with_zeros(m: &Mon, names: &[String], context: Context<'_>) -> bool
    ensures { IsTrue result
        ↔ (row.GivesZeros (context_of context.entry) (map string_bytes names.now) (mon_of m.now)
        × AreNone (map string_bytes names.now) (context_of context.entry).parameters) }
{
    gives_zeros(m, names, context) && are_unbound(names, context.parameters)
}

// Whether a program gives the zeros of locals.
fn gives_zeros(m: &Mon, names: &[String], context: Context<'_>) -> bool
    ensures { IsTrue result
        ↔ row.GivesZeros (context_of context.entry) (map string_bytes names.now) (mon_of m.now) }
{
    match m {
        Mon::Ret(values) => are_zeros(values, context.locals, names),
        _ => false,
    }
}

// Whether a program writes the value to the part of the global.
fn is_global_write(m: &Mon, name: &str, path: &Path, value: &Exp) -> bool
    ensures { IsTrue result
        ↔ (mon_of m.now ≡ M.Write (M.Global name.now (path_of path.now)) (exp_of value.now)) }
{
    match m {
        Mon::Write(Place::Global(other, other_path), other_value) => {
            other.as_str() == name && other_path.same(path) && other_value.same(value)
        }
        _ => false,
    }
}

// Whether a program writes the value to the part of the object.
fn is_memory_write(m: &Mon, ty: &CType, pointer: &Exp, path: &Path, value: &Exp) -> bool
    ensures { let place = M.Stored (type_of ty.now) (exp_of pointer.now) (path_of path.now) in
        IsTrue result ↔ (mon_of m.now ≡ M.Write place (exp_of value.now)) }
{
    match m {
        Mon::Write(Place::Stored(other, other_pointer, other_path), other_value) => {
            equal_types(other, ty)
                && other_pointer.same(pointer)
                && other_path.same(path)
                && other_value.same(value)
        }
        _ => false,
    }
}

// Whether a program fails where the condition is false.
fn is_guard_of(m: &Mon, condition: &Exp) -> bool
    ensures { IsTrue result ↔ (mon_of m.now ≡ M.Guard (exp_of condition.now)) }
{
    match m {
        Mon::Guard(other) => other.same(condition),
        _ => false,
    }
}

// Whether a program calls the function on the arguments.
fn is_call_of(m: &Mon, function: &str, arguments: &[Exp]) -> bool
    ensures { IsTrue result
        ↔ (mon_of m.now ≡ M.Call function.now (map exp_of arguments.now)) }
{
    match m {
        Mon::Call(other, others) => other.as_str() == function && same_exps(others, arguments),
        _ => false,
    }
}

// Whether a program picks a value of what a local of the kind holds.
fn is_pick_of(m: &Mon, kind: Option<Kind>) -> bool
    ensures { IsTrue result
        ↔ row.IsPickOf (picked_kind (option_map kind_of kind)) (mon_of m.now) }
{
    match m {
        Mon::Pick(picked) => is_picked(kind, *picked),
        _ => false,
    }
}

// Whether what a local of the kind holds is of the other kind.
fn is_picked(kind: Option<Kind>, picked: Kind) -> bool
    ensures { IsTrue result
        ↔ (picked_kind (option_map kind_of kind) ≡ Some (kind_of picked)) }
{
    match kind {
        Some(Kind::Word(width) | Kind::Nat(width) | Kind::Int(width)) => is_word(width, picked),
        Some(Kind::Bool) => matches!(picked, Kind::Bool),
        None => false,
    }
}

// Whether a kind is that of words of the width.
fn is_word(width: u8, kind: Kind) -> bool
    ensures { IsTrue result ↔ (WordKind width ≡ kind_of kind) }
{
    match kind {
        Kind::Word(other) => width == other,
        _ => false,
    }
}

// Whether a program is the loop of the conditions and the test over the names.
fn is_loop_of(m: &Mon, names: &[String], conditions: &[Condition], test: &Exp) -> bool
    ensures { let gs = map condition_of conditions.now in
        IsTrue result
        ↔ row.IsLoop (map string_bytes names.now) gs (exp_of test.now) (mon_of m.now) }
{
    match m {
        Mon::Loop(starts, guard, turn, _) => {
            are_starts_of(starts, names) && is_conjunction(guard, conditions) && turn.same(test)
        }
        _ => false,
    }
}
