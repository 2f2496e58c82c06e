//! Programs that commands are lifted to, with the trees of rules.

ghost use Rattle.std.specs.Prelude.{◌≡◌, List, [], ◌∷◌, map, string_bytes, IfOk};
ghost use Rattle.std.specs.Option.{option_map};
ghost use Rattle.c_values.specs.Name.{is_among};
ghost use Rattle.c_values.specs.CodeTypes.{type_of};
ghost use Rattle.expression_lang.specs.CodeExpression.{exp_of, path_of};
ghost use Rattle.expression_lang.specs.CodeSignature.{binder_of};
ghost use Rattle.expression_lang.specs.Signature as sign;
ghost use Rattle.simpl_lang.specs.Command as plain;
ghost use Rattle.simpl_lang.specs.CodeCommand.{condition_of};
ghost use Rattle.monad_lang.specs.Program as M;
ghost use Rattle.monad_lang.specs.CodeProgram.{mon_of};
ghost use Rattle.rule_trees.specs.RuleTree as trees;
ghost use Rattle.rule_trees.specs.RuleTree.{node, no_trees};
ghost use Rattle.rule_local.specs.Rule as rules;
ghost use Rattle.rule_local.specs.Table.{vars};
ghost use Rattle.rule_local.specs.Lifted as spec;
ghost use Rattle.rule_local.specs.CodeRule.{rule_of, tree_of};
ghost use Rattle.local_lift.specs.CodeLifted.{lifted_of};
ghost use Rattle.local_lift.specs.LiftedByLive.{by_live};

use crate::lists::{conjunction, kind_held, starts, vars, vars_with};
use c_values::{CType, copy_of};
use expression_lang::{Binder, Exp, Path, copy_exps};
use monad_lang::{Mon, Place, boxed, is_among};
use rule_local::Rule;
use rule_trees::Tree;
use simpl_lang::Condition;
use std::alloc::{AllocError, Global};

/// A program, and the tree of rules that takes a command to it.
#[derive(Drop)]
pub(crate) struct Lifted {
    pub(crate) right: Box<Mon>,
    pub(crate) tree: Tree<Rule>,
}

// A node without parts.
fn leaf(alloc: Global, rule: Rule) -> Tree<Rule>
    ensures { tree_of result ≡ node (rule_of rule) no_trees }
{
    Tree {
        rule,
        parts: Vec::new(alloc),
    }
}

// A node over one part.
fn over_one(alloc: Global, rule: Rule, part: Tree<Rule>) -> Result<Tree<Rule>, AllocError>
    ensures { IfOk result (λ t.
        tree_of t ≡ node (rule_of rule) (trees.tree (tree_of part) no_trees)) }
{
    let mut parts = Vec::new(alloc);
    parts.push(part)?;
    Ok(Tree { rule, parts })
}

// A node over two parts.
fn over_two(
    alloc: Global,
    rule: Rule,
    first: Tree<Rule>,
    last: Tree<Rule>,
) -> Result<Tree<Rule>, AllocError>
    ensures { IfOk result (λ t. tree_of t
        ≡ node (rule_of rule) (trees.tree (tree_of first) (trees.tree (tree_of last) no_trees))) }
{
    let mut parts = Vec::new(alloc);
    parts.push(first)?;
    parts.push(last)?;
    Ok(Tree { rule, parts })
}

// The program that gives what the outputs hold.
fn given(alloc: Global, outputs: &[String]) -> Result<Box<Mon>, AllocError>
    ensures { IfOk result (λ m. mon_of m.value ≡ M.Ret (vars (map string_bytes outputs.now))) }
{
    let exps = vars(alloc, outputs)?;
    boxed(alloc, Mon::Ret(exps))
}

// A program whose results go into these names, and then what the outputs hold.
fn then_given(
    alloc: Global,
    first: Mon,
    names: Vec<String>,
    outputs: &[String],
) -> Result<Box<Mon>, AllocError>
    ensures { IfOk result (λ m. mon_of m.value
        ≡ M.Bind (mon_of first) (map string_bytes names.items)
        (M.Ret (vars (map string_bytes outputs.now)))) }
{
    let first = boxed(alloc, first)?;
    let last = given(alloc, outputs)?;
    boxed(alloc, Mon::Bind(first, names, last))
}

// A name alone.
fn alone(alloc: Global, name: &String) -> Result<Vec<String>, AllocError>
    ensures { IfOk result (λ names. map string_bytes names.items ≡ string_bytes name.now ∷ []) }
{
    let mut names = Vec::new(alloc);
    names.push(name.clone()?)?;
    Ok(names)
}

/// What changes no local.
pub(crate) fn nothing(alloc: Global, outputs: &[String]) -> Result<Lifted, AllocError>
    ensures { IfOk result (λ l. lifted_of l
        ≡ spec.leaf rules.Skip (M.Ret (vars (map string_bytes outputs.now)))) }
{
    let right = given(alloc, outputs)?;
    Ok(Lifted {
        right,
        tree: leaf(alloc, Rule::Skip),
    })
}

/// A set of a local.
pub(crate) fn set(
    alloc: Global,
    name: &str,
    value: &Exp,
    outputs: &[String],
) -> Result<Lifted, AllocError>
    ensures { IfOk result (λ l. lifted_of l
        ≡ spec.set_lifted (is_among name.now (map string_bytes outputs.now)) name.now
        (exp_of value.now) (map string_bytes outputs.now)) }
{
    if is_among(name, outputs) {
        let exps = vars_with(alloc, name, value, outputs)?;
        let right = boxed(alloc, Mon::Ret(exps))?;
        Ok(Lifted {
            right,
            tree: leaf(alloc, Rule::Set),
        })
    } else {
        let right = given(alloc, outputs)?;
        Ok(Lifted {
            right,
            tree: leaf(alloc, Rule::Dead),
        })
    }
}

/// A write into a part of a global.
pub(crate) fn global_set(
    alloc: Global,
    name: &String,
    path: &Path,
    value: &Exp,
    outputs: &[String],
) -> Result<Lifted, AllocError>
    ensures { IfOk result (λ l. lifted_of l
        ≡ spec.leaf rules.Global
        (M.Bind (M.Write (M.Global (string_bytes name.now) (path_of path.now))
        (exp_of value.now)) []
        (M.Ret (vars (map string_bytes outputs.now))))) }
{
    let value = value.boxed_copy(alloc)?;
    let place = Place::Global(name.clone()?, path.copy(alloc)?);
    let first = Mon::Write(place, Box::into_inner(value));
    let right = then_given(alloc, first, Vec::new(alloc), outputs)?;
    Ok(Lifted {
        right,
        tree: leaf(alloc, Rule::Global),
    })
}

/// A store.
pub(crate) fn stored(
    alloc: Global,
    ty: &CType,
    pointer: &Exp,
    path: &Path,
    value: &Exp,
    outputs: &[String],
) -> Result<Lifted, AllocError>
    ensures { IfOk result (λ l. lifted_of l
        ≡ spec.leaf rules.Memory
        (M.Bind
        (M.Write (M.Stored (type_of ty.now) (exp_of pointer.now) (path_of path.now))
        (exp_of value.now)) [] (M.Ret (vars (map string_bytes outputs.now))))) }
{
    let value = value.boxed_copy(alloc)?;
    let pointer = pointer.boxed_copy(alloc)?;
    let path = path.copy(alloc)?;
    let place = Place::Stored(copy_of(alloc, ty)?, Box::into_inner(pointer), path);
    let first = Mon::Write(place, Box::into_inner(value));
    let right = then_given(alloc, first, Vec::new(alloc), outputs)?;
    Ok(Lifted {
        right,
        tree: leaf(alloc, Rule::Memory),
    })
}

/// A local takes any value.
pub(crate) fn picked(
    alloc: Global,
    locals: &[Binder],
    name: &String,
    outputs: &[String],
) -> Result<Lifted, AllocError>
    ensures { IfOk result (λ l. lifted_of l
        ≡ by_live (map binder_of locals.now) (plain.Pick (string_bytes name.now))
        (map string_bytes outputs.now)) }
{
    let first = Mon::Pick(kind_held(locals, name.as_str()));
    let names = alone(alloc, name)?;
    let right = then_given(alloc, first, names, outputs)?;
    Ok(Lifted {
        right,
        tree: leaf(alloc, Rule::Pick),
    })
}

/// A call.
pub(crate) fn called(
    alloc: Global,
    target: &Option<String>,
    function: &String,
    arguments: &[Exp],
    outputs: &[String],
) -> Result<Lifted, AllocError>
    ensures { IfOk result (λ l. (bs : List sign.Binder) → lifted_of l
        ≡ by_live bs
        (plain.Call (option_map string_bytes target.now) (string_bytes function.now)
        (map exp_of arguments.now)) (map string_bytes outputs.now)) }
{
    let arguments = copy_exps(alloc, arguments)?;
    let first = Mon::Call(function.clone()?, arguments);
    match target {
        Some(name) => {
            let names = alone(alloc, name)?;
            let right = then_given(alloc, first, names, outputs)?;
            Ok(Lifted {
                right,
                tree: leaf(alloc, Rule::Call),
            })
        }
        None => {
            let right = then_given(alloc, first, Vec::new(alloc), outputs)?;
            Ok(Lifted {
                right,
                tree: leaf(alloc, Rule::Void),
            })
        }
    }
}

/// A sequence, of which the first part hands on the names.
pub(crate) fn in_sequence(
    alloc: Global,
    first: Lifted,
    names: Vec<String>,
    last: Lifted,
) -> Result<Lifted, AllocError>
    ensures { IfOk result (λ l. lifted_of l
        ≡ spec.over_two rules.Seq
        (M.Bind (lifted_of first).right (map string_bytes names.items) (lifted_of last).right)
        (lifted_of first) (lifted_of last)) }
{
    let Lifted { right: a, tree: s } = first;
    let Lifted { right: b, tree: t } = last;
    let tree = over_two(alloc, Rule::Seq, s, t)?;
    let right = boxed(alloc, Mon::Bind(a, names, b))?;
    Ok(Lifted { right, tree })
}

/// A guard.
pub(crate) fn guarded(
    alloc: Global,
    condition: &Condition,
    last: Lifted,
) -> Result<Lifted, AllocError>
    ensures { IfOk result (λ l. lifted_of l
        ≡ spec.over_one rules.Guard
        (M.Bind (M.Guard (condition_of condition.now).exp) [] (lifted_of last).right)
        (lifted_of last)) }
{
    let Lifted { right: b, tree: t } = last;
    let tree = over_one(alloc, Rule::Guard, t)?;
    let exp = condition.exp.boxed_copy(alloc)?;
    let first = boxed(alloc, Mon::Guard(Box::into_inner(exp)))?;
    let right = boxed(alloc, Mon::Bind(first, Vec::new(alloc), b))?;
    Ok(Lifted { right, tree })
}

/// A test, and what follows each way.
pub(crate) fn tested(
    alloc: Global,
    test: &Exp,
    first: Lifted,
    last: Lifted,
) -> Result<Lifted, AllocError>
    ensures { IfOk result (λ l. lifted_of l
        ≡ spec.over_two rules.Cond
        (M.If (exp_of test.now) (lifted_of first).right (lifted_of last).right)
        (lifted_of first) (lifted_of last)) }
{
    let Lifted { right: a, tree: s } = first;
    let Lifted { right: b, tree: t } = last;
    let tree = over_two(alloc, Rule::Cond, s, t)?;
    let test = test.boxed_copy(alloc)?;
    let right = boxed(alloc, Mon::If(Box::into_inner(test), a, b))?;
    Ok(Lifted { right, tree })
}

/// A loop that hands on the names.
#[inline(never)]
pub(crate) fn looped(
    alloc: Global,
    conditions: &[Condition],
    test: &Exp,
    names: Vec<String>,
    body: Lifted,
    outputs: &[String],
) -> Result<Lifted, AllocError>
    ensures { IfOk result (λ l. lifted_of l
        ≡ spec.while_lifted (map condition_of conditions.now) (exp_of test.now)
        (map string_bytes outputs.now) (map string_bytes names.items) (λ us. lifted_of body)) }
{
    let Lifted { right: b, tree: t } = body;
    let tree = over_one(alloc, Rule::While, t)?;
    let guard = conjunction(alloc, conditions)?;
    let test = test.boxed_copy(alloc)?;
    let starts = starts(alloc, names.as_slice())?;
    let first = Mon::Loop(starts, Box::into_inner(guard), Box::into_inner(test), b);
    let right = then_given(alloc, first, names, outputs)?;
    Ok(Lifted { right, tree })
}

/// A start: names that begin with these values, and then a program.
pub(crate) fn starting(
    alloc: Global,
    names: Vec<String>,
    values: Vec<Exp>,
    last: Lifted,
) -> Result<Lifted, AllocError>
    ensures { IfOk result (λ l. lifted_of l
        ≡ spec.over_one rules.Start
        (M.Bind (M.Ret (map exp_of values.items)) (map string_bytes names.items)
        (lifted_of last).right) (lifted_of last)) }
{
    let Lifted { right: b, tree: t } = last;
    let tree = over_one(alloc, Rule::Start, t)?;
    let first = boxed(alloc, Mon::Ret(values))?;
    let right = boxed(alloc, Mon::Bind(first, names, b))?;
    Ok(Lifted { right, tree })
}
