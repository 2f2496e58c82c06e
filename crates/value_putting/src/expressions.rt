//! A value put into what stands in programs: expressions, lists of them, places, and what loops
//! begin with.

ghost use Rattle.std.specs.Prelude.{◌≡◌, map, IfOk};
ghost use Rattle.expression_lang.specs.CodeExpression.{exp_of, path_of};
ghost use Rattle.ac_expr.specs.Substituted.{substituted, path_substituted};
ghost use Rattle.monad_lang.specs.CodeProgram.{place_of, start_of};
ghost use Rattle.program_facts.specs.Substituted.{each_substituted, starts_substituted, place_substituted};
ghost use Rattle.value_putting.specs.Parts.{start_substituted};

use c_values::copy_of;
use expression_lang::{Change, Exp, Path};
use monad_lang::{Place, Start};
use std::alloc::{AllocError, Global};

// A value in place of a name.
#[derive(Clone, Copy)]
struct InPlaceOf<'a> {
    name: &'a str,
    value: &'a Exp,
}

impl Change for InPlaceOf<'_> {
    ghost use Rattle.expression_lang.specs.CodeExpression.{exp_of};
    ghost use Rattle.ac_expr.specs.Substituted.{in_place_of};

    ghost instead = { λ it e. in_place_of it.name.now (exp_of it.value.now) e };

    fn instead(&self, alloc: Global, e: &Exp) -> Result<Option<Box<Exp>>, AllocError> {
        match e {
            Exp::Var(name) if self.name == name.as_str() => {
                Ok(Some(self.value.boxed_copy(alloc)?))
            }
            _ => Ok(None),
        }
    }
}

/// An expression with the value in place of the name.
pub(crate) fn in_exp(
    alloc: Global,
    name: &str,
    value: &Exp,
    e: &Exp,
) -> Result<Box<Exp>, AllocError>
    ensures { IfOk result (λ new.
        exp_of new.value ≡ substituted name.now (exp_of value.now) (exp_of e.now)) }
{
    e.changed(alloc, &InPlaceOf { name, value })
}

fn in_path(alloc: Global, name: &str, value: &Exp, path: &Path) -> Result<Path, AllocError>
    ensures { IfOk result (λ new.
        path_of new ≡ path_substituted name.now (exp_of value.now) (path_of path.now)) }
{
    path.changed(alloc, &InPlaceOf { name, value })
}

/// Expressions with the value in place of the name.
#[tactic(auto, using(crate::proofs::Lists::mapped_push))]
pub(crate) fn in_each(
    alloc: Global,
    name: &str,
    value: &Exp,
    exps: &[Exp],
) -> Result<Vec<Exp>, AllocError>
    ensures { IfOk result (λ new. map exp_of new.items
        ≡ each_substituted name.now (exp_of value.now) (map exp_of exps.now)) }
{
    let mut new = Vec::new(alloc);
    let mut rest = exps;
    'along: while let Some((first, others)) = rest.split_first() {
        let first = in_exp(alloc, name, value, first)?;
        new.push(Box::into_inner(first))?;
        rest = others;
    }
    Ok(new)
}

fn in_start(alloc: Global, name: &str, value: &Exp, start: &Start) -> Result<Start, AllocError>
    ensures { IfOk result (λ new.
        start_of new ≡ start_substituted name.now (exp_of value.now) (start_of start.now)) }
{
    let exp = in_exp(alloc, name, value, &start.exp)?;
    let name = start.name.clone()?;
    Ok(Start {
        name,
        exp: Box::into_inner(exp),
    })
}

/// What a loop begins with, with the value in place of the name.
#[tactic(auto, using(crate::proofs::Lists::mapped_push))]
pub(crate) fn in_starts(
    alloc: Global,
    name: &str,
    value: &Exp,
    starts: &[Start],
) -> Result<Vec<Start>, AllocError>
    ensures { IfOk result (λ new. map start_of new.items
        ≡ starts_substituted name.now (exp_of value.now) (map start_of starts.now)) }
{
    let mut new = Vec::new(alloc);
    let mut rest = starts;
    'along: while let Some((first, others)) = rest.split_first() {
        new.push(in_start(alloc, name, value, first)?)?;
        rest = others;
    }
    Ok(new)
}

/// What is written, with the value in place of the name.
#[tactic(auto, using(crate::proofs::Parts::stored_put, crate::proofs::Parts::written_put))]
pub(crate) fn in_place(
    alloc: Global,
    name: &str,
    value: &Exp,
    place: &Place,
) -> Result<Place, AllocError>
    ensures { IfOk result (λ new.
        place_of new ≡ place_substituted name.now (exp_of value.now) (place_of place.now)) }
{
    match place {
        Place::Stored(ty, pointer, path) => {
            let pointer = in_exp(alloc, name, value, pointer)?;
            let path = in_path(alloc, name, value, path)?;
            Ok(Place::Stored(copy_of(alloc, ty)?, Box::into_inner(pointer), path))
        }
        Place::Written(ty, pointer, path) => {
            let pointer = in_exp(alloc, name, value, pointer)?;
            let path = in_path(alloc, name, value, path)?;
            Ok(Place::Written(copy_of(alloc, ty)?, Box::into_inner(pointer), path))
        }
        Place::Global(global, path) => {
            let path = in_path(alloc, name, value, path)?;
            Ok(Place::Global(global.clone()?, path))
        }
    }
}
