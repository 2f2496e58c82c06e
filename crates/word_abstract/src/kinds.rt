//! The kinds of names.

ghost use Rattle.std.specs.Prelude.{◌≡◌, map, string_bytes, IfOk};
ghost use Rattle.std.specs.Option.{option_map};
ghost use Rattle.expression_lang.specs.CodeExpression.{kind_of};
ghost use Rattle.expression_lang.specs.CodeSignature.{binder_of};
ghost use Rattle.expression_lang.specs.CodeSort.{scalar_of};
ghost use Rattle.rule_word.specs.Scopes.{names_in};
ghost use Rattle.rule_word.specs.ProgramsAbstracted.{word_kind_of, kind_for, kinds_for, same_kinds, in_words};

use expression_lang::{Binder, Kind, Scalar, scalar_of_kind};
use std::alloc::{AllocError, Global};

// The kind of a local.
fn local_kind(locals: &[Binder], name: &str) -> Option<Kind>
    ensures { option_map kind_of result ≡ names_in (λ k. k) (map binder_of locals.now) name.now }
{
    let mut rest = locals;
    'locals: while let Some((first, others)) = rest.split_first() {
        if first.name.as_str() == name {
            return Some(first.kind);
        }
        rest = others;
    }
    None
}

// The kind of what stays a word or a truth value.
fn word_kind(scalar: Scalar) -> Kind
    ensures { kind_of result ≡ word_kind_of (scalar_of scalar) }
{
    match scalar {
        Scalar::Word(width) => Kind::Word(width),
        Scalar::Num | Scalar::Truth => Kind::Bool,
    }
}

// A name's own kind where it is of the scalar, else that of a word.
fn kind_for(own: Option<Kind>, scalar: Scalar) -> Kind
    ensures { kind_of result ≡ kind_for (option_map kind_of own) (scalar_of scalar) }
{
    match own {
        Some(kind) if scalar_of_kind(kind) == scalar => kind,
        _ => word_kind(scalar),
    }
}

/// The kinds of names whose values have these scalars.
#[tactic(auto, using(crate::proofs::Mapped::mapped_push))]
pub(crate) fn kinds_for(
    alloc: Global,
    locals: &[Binder],
    names: &[String],
    scalars: &[Scalar],
) -> Result<Vec<Kind>, AllocError>
    ensures { IfOk result (λ kinds. map kind_of kinds.items
        ≡ kinds_for (λ x. names_in (λ k. k) (map binder_of locals.now) x)
        (map string_bytes names.now)
        (map scalar_of scalars.now)) }
{
    let mut kinds = Vec::new(alloc);
    let mut rest = names;
    let mut left = scalars;
    'names: while let Some((scalar, others)) = left.split_first() {
        let kind = match rest.split_first() {
            Some((name, behind)) => {
                rest = behind;
                kind_for(local_kind(locals, name.as_str()), *scalar)
            }
            None => word_kind(*scalar),
        };
        kinds.push(kind)?;
        left = others;
    }
    Ok(kinds)
}

/// Whether two lists have the same kinds.
pub(crate) fn same_kinds(a: &[Kind], b: &[Kind]) -> bool
    ensures { result ≡ same_kinds (map kind_of a.now) (map kind_of b.now) }
{
    let mut left = a;
    let mut right = b;
    'along: while let Some((first, rest)) = left.split_first() {
        let Some((other, others)) = right.split_first() else {
            return false;
        };
        if *first != *other {
            return false;
        }
        left = rest;
        right = others;
    }
    right.is_empty()
}

/// The kinds of the same values as words.
#[tactic(auto, using(crate::proofs::Mapped::mapped_push))]
pub(crate) fn in_words(alloc: Global, kinds: &[Kind]) -> Result<Vec<Kind>, AllocError>
    ensures { IfOk result (λ new. map kind_of new.items ≡ in_words (map kind_of kinds.now)) }
{
    let mut words = Vec::new(alloc);
    let mut rest = kinds;
    'along: while let Some((first, others)) = rest.split_first() {
        words.push(word_kind(scalar_of_kind(*first)))?;
        rest = others;
    }
    Ok(words)
}

/// The same kinds.
#[tactic(auto, using(crate::proofs::Mapped::mapped_push))]
pub(crate) fn copy_kinds(alloc: Global, kinds: &[Kind]) -> Result<Vec<Kind>, AllocError>
    ensures { IfOk result (λ new. map kind_of new.items ≡ map kind_of kinds.now) }
{
    let mut copies = Vec::new(alloc);
    let mut rest = kinds;
    'along: while let Some((first, others)) = rest.split_first() {
        copies.push(*first)?;
        rest = others;
    }
    Ok(copies)
}
