//! What is taken to what, of a command whose last part is apart.

ghost use Rattle.std.specs.Prelude.{◌≡◌, true, false, map, IfOk};
ghost use Rattle.expression_lang.specs.CodeExpression.{exp_of};
ghost use Rattle.simpl_lang.specs.Command.{Cond};
ghost use Rattle.simpl_lang.specs.CodeCommand.{condition_of, simpl_of};
ghost use Rattle.rule_exn.specs.Table.{is_thrown};
ghost use Rattle.exception_elim.specs.CodeDone as done;
ghost use Rattle.exception_elim.specs.CodeDone.{done_of};
ghost use Rattle.exception_elim.specs.CodeFront.{with_front};

use crate::eliminated::{Eliminated, over_one, over_two};
use crate::flags::{cleared, conditions_unless_thrown, flag, test_unless_thrown};
use expression_lang::Exp;
use rule_exn::Rule;
use simpl_lang::{Condition, Simpl, boxed};
use std::alloc::{AllocError, Global};

/// All but the last part of a command; other parts are taken to theirs already.
#[derive(Drop)]
pub(crate) enum Front {
    Seq(Box<Eliminated>),
    Cond(Box<Exp>, Box<Eliminated>),
    Guard(Box<Condition>),
    /// The body of a catch that may throw.
    Catch(Box<Eliminated>),
    While(Vec<Condition>, Box<Exp>),
}

/// What the whole is taken to, where its last part is taken to this.
pub(crate) fn with_front(
    alloc: Global,
    front: Front,
    last: Eliminated,
) -> Result<Eliminated, AllocError>
    ensures { IfOk result (λ e. done_of e ≡ with_front front (done_of last)) }
{
    match front {
        Front::Seq(first) => sequence(alloc, Box::into_inner(first), last),
        Front::Cond(test, first) => conditional(alloc, test, Box::into_inner(first), last),
        Front::Guard(condition) => guarded(alloc, Box::into_inner(condition), last),
        Front::Catch(body) => handled(alloc, Box::into_inner(body), last),
        Front::While(conditions, test) => repeated(alloc, conditions, test, last),
    }
}

fn sequence(alloc: Global, first: Eliminated, last: Eliminated) -> Result<Eliminated, AllocError>
    ensures { IfOk result (λ e. done_of e ≡ done.sequence (done_of first) (done_of last)) }
{
    if first.is_quiet {
        plain_sequence(alloc, first, last)
    } else {
        tested_sequence(alloc, first, last)
    }
}

fn plain_sequence(
    alloc: Global,
    first: Eliminated,
    last: Eliminated,
) -> Result<Eliminated, AllocError>
    requires { first.is_quiet ≡ true }
    ensures { IfOk result (λ e. done_of e ≡ done.sequence (done_of first) (done_of last)) }
{
    let Eliminated {
        right: a,
        tree: s,
        ..
    } = first;
    let Eliminated {
        right: b,
        tree: t,
        is_quiet,
    } = last;
    let tree = over_two(alloc, Rule::SeqPlain, s, t)?;
    let right = boxed(alloc, Simpl::Seq(a, b))?;
    Ok(Eliminated {
        right,
        tree,
        is_quiet,
    })
}

fn tested_sequence(
    alloc: Global,
    first: Eliminated,
    last: Eliminated,
) -> Result<Eliminated, AllocError>
    requires { first.is_quiet ≡ false }
    ensures { IfOk result (λ e. done_of e ≡ done.sequence (done_of first) (done_of last)) }
{
    let Eliminated {
        right: a,
        tree: s,
        ..
    } = first;
    let Eliminated {
        right: b,
        tree: t,
        ..
    } = last;
    let tree = over_two(alloc, Rule::SeqTest, s, t)?;
    let skip = boxed(alloc, Simpl::Skip)?;
    let rest = where_thrown(alloc, skip, b)?;
    let right = boxed(alloc, Simpl::Seq(a, rest))?;
    Ok(Eliminated {
        right,
        tree,
        is_quiet: false,
    })
}

// The first where something was thrown, else the second.
fn where_thrown(
    alloc: Global,
    thrown: Box<Simpl>,
    other: Box<Simpl>,
) -> Result<Box<Simpl>, AllocError>
    ensures { IfOk result (λ c.
        simpl_of c.value ≡ Cond is_thrown (simpl_of thrown.value) (simpl_of other.value)) }
{
    let flag = flag(alloc)?;
    boxed(alloc, Simpl::Cond(Box::into_inner(flag), thrown, other))
}

fn conditional(
    alloc: Global,
    test: Box<Exp>,
    first: Eliminated,
    last: Eliminated,
) -> Result<Eliminated, AllocError>
    ensures { IfOk result (λ e. done_of e
        ≡ done.conditional (exp_of test.value) (done_of first) (done_of last)) }
{
    let Eliminated {
        right: a,
        tree: s,
        is_quiet: first_is_quiet,
    } = first;
    let Eliminated {
        right: b,
        tree: t,
        is_quiet: last_is_quiet,
    } = last;
    let tree = over_two(alloc, Rule::Cond, s, t)?;
    let right = boxed(alloc, Simpl::Cond(Box::into_inner(test), a, b))?;
    Ok(Eliminated {
        right,
        tree,
        is_quiet: first_is_quiet && last_is_quiet,
    })
}

fn guarded(alloc: Global, condition: Condition, last: Eliminated) -> Result<Eliminated, AllocError>
    ensures { IfOk result (λ e. done_of e
        ≡ done.guarded (condition_of condition) (done_of last)) }
{
    let Eliminated {
        right: a,
        tree: t,
        is_quiet,
    } = last;
    let tree = over_one(alloc, Rule::Guard, t)?;
    let right = boxed(alloc, Simpl::Guard(condition, a))?;
    Ok(Eliminated {
        right,
        tree,
        is_quiet,
    })
}

// A body that may throw, and its handler: the handler runs with the flag cleared.
fn handled(alloc: Global, body: Eliminated, handler: Eliminated) -> Result<Eliminated, AllocError>
    ensures { IfOk result (λ e. done_of e ≡ done.handled (done_of body) (done_of handler)) }
{
    let Eliminated {
        right: a,
        tree: s,
        is_quiet: body_is_quiet,
    } = body;
    let Eliminated {
        right: b,
        tree: t,
        is_quiet: handler_is_quiet,
    } = handler;
    let tree = over_two(alloc, Rule::CatchTest, s, t)?;
    let cleared = cleared(alloc)?;
    let handling = boxed(alloc, Simpl::Seq(cleared, b))?;
    let skip = boxed(alloc, Simpl::Skip)?;
    let rest = where_thrown(alloc, handling, skip)?;
    let right = boxed(alloc, Simpl::Seq(a, rest))?;
    Ok(Eliminated {
        right,
        tree,
        is_quiet: body_is_quiet || handler_is_quiet,
    })
}

fn repeated(
    alloc: Global,
    conditions: Vec<Condition>,
    test: Box<Exp>,
    body: Eliminated,
) -> Result<Eliminated, AllocError>
    ensures { IfOk result (λ e. done_of e
        ≡ done.looped (map condition_of conditions.items) (exp_of test.value) (done_of body)) }
{
    if body.is_quiet {
        plain_loop(alloc, conditions, test, body)
    } else {
        tested_loop(alloc, conditions, test, body)
    }
}

fn plain_loop(
    alloc: Global,
    conditions: Vec<Condition>,
    test: Box<Exp>,
    body: Eliminated,
) -> Result<Eliminated, AllocError>
    requires { body.is_quiet ≡ true }
    ensures { IfOk result (λ e. done_of e
        ≡ done.looped (map condition_of conditions.items) (exp_of test.value) (done_of body)) }
{
    let Eliminated {
        right: a,
        tree: t,
        ..
    } = body;
    let tree = over_one(alloc, Rule::WhilePlain, t)?;
    let right = boxed(alloc, Simpl::While(conditions, Box::into_inner(test), a))?;
    Ok(Eliminated {
        right,
        tree,
        is_quiet: true,
    })
}

fn tested_loop(
    alloc: Global,
    conditions: Vec<Condition>,
    test: Box<Exp>,
    body: Eliminated,
) -> Result<Eliminated, AllocError>
    requires { body.is_quiet ≡ false }
    ensures { IfOk result (λ e. done_of e
        ≡ done.looped (map condition_of conditions.items) (exp_of test.value) (done_of body)) }
{
    let Eliminated {
        right: a,
        tree: t,
        ..
    } = body;
    let tree = over_one(alloc, Rule::WhileTest, t)?;
    let conditions = conditions_unless_thrown(alloc, conditions)?;
    let test = test_unless_thrown(alloc, test)?;
    let right = boxed(alloc, Simpl::While(conditions, Box::into_inner(test), a))?;
    Ok(Eliminated {
        right,
        tree,
        is_quiet: false,
    })
}
