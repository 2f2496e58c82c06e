//! Expressions, and the types, members, enumerators and lengths that stand among them.

ghost use Rattle.std.specs.Prelude.{◌≡◌, [], pos};
ghost use Rattle.c_grammar.specs.CodeTree as view;
ghost use Rattle.c_values.specs.CodeTypes.{type_of};
ghost use Rattle.typing_rules.specs.CodeAnswers.{Answers};
ghost use Rattle.typing_rules.specs.CodeOperand.{operand_of, demand_of};
ghost use Rattle.typing_scope.specs.CodeScope.{scope_of};
ghost use Rattle.typing_rules.specs.CodeWords.{part_of, base_of};
ghost use Rattle.typing_scope.specs.CodeDeclared.{declared_of};
ghost use Rattle.typing_scope.specs.CodeFields.{members_of};
ghost use Rattle.typing_rules.specs.Expressions as expressions;
ghost use Rattle.c_lang.specs.CodeTyped.{expr_of};

use crate::at_nodes::{
    binary_at, cast_at, chosen_at, element_at, joined_at, member_at, pointer_member_at, starred_at,
    type_size_at, unary_at,
};
use crate::names::variable;
use crate::noted::{enumerator_at, integer_at, size_at};
use c_grammar::tree::{
    CExp, Declarator, Declarators, Dimensions, Enumerator, Enumerators, Members, Word, Words,
};
use c_lang::tree::Expr;
use c_values::{CType, Number};
use std::alloc::Global;
use typing_nodes::{character, number, unary_demand};
use typing_rules::fault::TypeFault;
use typing_rules::operands::{Demand, Operand, value_in};
use typing_rules::rulings::at_node;
use typing_rules::specifiers::{Base, Part, Specs, type_start};
use typing_scope::declarators::{Declared, declarator_start, declared_type, length_at};
use typing_scope::members::Fields;
use typing_scope::scope::Scope;
use typing_scope::type_words::{enum_body, enum_tag, mention, named_type, struct_body, struct_tag};

/// Where an expression begins.
pub fn first(e: &CExp) -> usize
    ensures { result ≡ expressions.first (view.exp_of e.now) }
{
    let mut left = e;
    loop {
        match left {
            CExp::Name(at, _)
            | CExp::Number(at, _, _, _, _)
            | CExp::Character(at, _)
            | CExp::Parenthesis(at, _)
            | CExp::Unary(at, _, _)
            | CExp::SizeofValue(at, _)
            | CExp::SizeofType(at, _, _)
            | CExp::Cast(at, _, _, _) => return *at,
            CExp::Index(part, _)
            | CExp::Member(part, _)
            | CExp::PointerMember(part, _)
            | CExp::Binary(_, part, _)
            | CExp::Conditional(part, _, _) => left = &**part,
        }
    }
}

/// The value of an expression.
pub fn value(alloc: Global, e: &CExp, scope: &mut Scope) -> Result<Expr, TypeFault>
    ensures { Answers expr_of (scope_of scope.new) result
        (expressions.value (view.exp_of e.now) (scope_of scope.old)) }
{
    let operand = operand(alloc, e, scope, Demand::Value)?;
    Ok(value_in(alloc, operand)?)
}

/// An operand that stays a place, as of `=`, `++` and `--`.
pub fn place(alloc: Global, e: &CExp, scope: &mut Scope) -> Result<Operand, TypeFault>
    ensures { Answers operand_of (scope_of scope.new) result
        (expressions.place (view.exp_of e.now) (scope_of scope.old)) }
{
    operand(alloc, e, scope, Demand::Place)
}

/// The value of a constant expression of an integer type.
pub fn integer_constant(alloc: Global, e: &CExp, scope: &mut Scope) -> Result<Number, TypeFault>
    ensures { Answers (λ n. n) (scope_of scope.new) result
        (expressions.integer_constant (view.exp_of e.now) (scope_of scope.old)) }
{
    let operand = operand(alloc, e, scope, Demand::Value)?;
    integer_at(alloc, first(e), operand, scope)
}

/// A type, and whether `static` or `extern` stands beside it.
#[cycle(expression)]
pub fn base(alloc: Global, words: &Words, scope: &mut Scope) -> Result<Base, TypeFault>
    ensures { Answers base_of (scope_of scope.new) result
        (expressions.base (view.words_of words.now) (scope_of scope.old)) }
{
    let mut specs = Specs::none();
    let mut rest = words;
    while let Words::More(first, more) = rest {
        let part = word(alloc, &**first, scope)?;
        specs = specs.with_part(part);
        rest = &**more;
    }
    at_node(type_start(words), specs.base())
}

#[cycle(expression)]
fn word(alloc: Global, word: &Word, scope: &mut Scope) -> Result<Part, TypeFault>
    ensures { Answers part_of (scope_of scope.new) result
        (expressions.word (view.word_of word.now) (scope_of scope.old)) }
{
    match word {
        Word::Reserved(_, keyword) => Ok(Part::Word(*keyword)),
        Word::Named(at, name) => named_type(alloc, *at, name.as_str(), &*scope),
        Word::StructTag(at, tag) => struct_tag(alloc, *at, tag.as_str(), scope),
        Word::StructBody(at, tag, body) => {
            mention(alloc, tag, scope)?;
            let fields = members(alloc, &**body, scope)?;
            struct_body(alloc, *at, tag, fields, scope)
        }
        Word::EnumTag(at, tag) => enum_tag(*at, tag.as_str(), &*scope),
        Word::EnumBody(at, tag, body) => {
            let _ = enumerators(alloc, &**body, scope)?;
            enum_body(alloc, *at, tag, scope)
        }
    }
}

#[cycle(expression)]
fn members(alloc: Global, members: &Members, scope: &mut Scope) -> Result<Fields, TypeFault>
    ensures { Answers members_of (scope_of scope.new) result
        (expressions.members [] (view.members_of members.now) (scope_of scope.old)) }
{
    let mut fields = Fields::none(alloc);
    let mut rest = members;
    loop {
        match rest {
            Members::Last(words, declared) => {
                let base = base(alloc, &**words, scope)?;
                return declarators(alloc, &**declared, scope, &base.ty, fields);
            }
            Members::More(words, declared, more) => {
                let base = base(alloc, &**words, scope)?;
                fields = declarators(alloc, &**declared, scope, &base.ty, fields)?;
                rest = &**more;
            }
        }
    }
}

#[cycle(expression)]
fn declarators(
    alloc: Global,
    declared: &Declarators,
    scope: &mut Scope,
    ty: &CType,
    fields: Fields,
) -> Result<Fields, TypeFault>
    ensures { Answers members_of (scope_of scope.new) result
        (expressions.declarators (type_of ty.now) (members_of fields)
        (view.declarators_of declared.now) (scope_of scope.old)) }
{
    let mut fields = fields;
    let mut rest = declared;
    loop {
        match rest {
            Declarators::Last(last) => {
                let member = declarator(alloc, &**last, scope, ty)?;
                return joined_at(fields, member, &*scope);
            }
            Declarators::More(next, more) => {
                let member = declarator(alloc, &**next, scope, ty)?;
                fields = joined_at(fields, member, &*scope)?;
                rest = &**more;
            }
        }
    }
}

/// A declarator: its faults are those of what it declares, beside others there.
#[cycle(expression)]
pub fn declarator(
    alloc: Global,
    declarator: &Declarator,
    scope: &mut Scope,
    ty: &CType,
) -> Result<Declared, TypeFault>
    ensures { Answers declared_of (scope_of scope.new) result
        (expressions.declarator (type_of ty.now) (view.declarator_of declarator.now)
        (scope_of scope.old)) }
{
    let Declarator::Declare(stars, at, name, dimensions) = declarator;
    let lengths = lengths(alloc, &**dimensions, scope)?;
    Ok(Declared {
        at: declarator_start(stars, *at),
        name: name.clone()?,
        ty: declared_type(alloc, ty, stars.len(), &lengths)?,
    })
}

#[cycle(expression)]
fn lengths(alloc: Global, dimensions: &Dimensions, scope: &mut Scope) -> Result<Vec<u32>, TypeFault>
    ensures { Answers (λ v. v.items) (scope_of scope.new) result
        (expressions.dimensions [] (view.dimensions_of dimensions.now) (scope_of scope.old)) }
{
    let mut lengths = Vec::new(alloc);
    let mut rest = dimensions;
    while let Dimensions::More(length, more) = rest {
        let typed = operand(alloc, &**length, scope, Demand::Value)?;
        let n = integer_at(alloc, first(length), typed, scope)?;
        lengths.push(length_at(n))?;
        rest = &**more;
    }
    Ok(lengths)
}

// The value behind the last one.
#[cycle(expression)]
fn enumerators(
    alloc: Global,
    enumerators: &Enumerators,
    scope: &mut Scope,
) -> Result<Number, TypeFault>
    ensures { Answers (λ n. n) (scope_of scope.new) result
        (expressions.enumerators (pos 0) (view.enumerators_of enumerators.now)
        (scope_of scope.old)) }
{
    let mut next = Number::new(false, 0);
    let mut rest = enumerators;
    loop {
        match rest {
            Enumerators::Last(last) => return enumerator(alloc, &**last, scope, next),
            Enumerators::More(first, more) => {
                next = enumerator(alloc, &**first, scope, next)?;
                rest = &**more;
            }
        }
    }
}

#[cycle(expression)]
fn enumerator(
    alloc: Global,
    enumerator: &Enumerator,
    scope: &mut Scope,
    next: Number,
) -> Result<Number, TypeFault>
    ensures { Answers (λ n. n) (scope_of scope.new) result
        (expressions.enumerator next (view.enumerator_of enumerator.now) (scope_of scope.old)) }
{
    match enumerator {
        Enumerator::Implicit(at, name) => at_node(
            *at,
            scope.enumerator(alloc, name.as_str(), next),
        ),
        Enumerator::Explicit(at, name, value) => {
            let typed = operand(alloc, &**value, scope, Demand::Value)?;
            enumerator_at(alloc, *at, name.as_str(), first(value), typed, scope)
        }
    }
}

/// An operand.
#[cycle(expression)]
fn operand(alloc: Global, e: &CExp, scope: &mut Scope, demand: Demand) -> Result<Operand, TypeFault>
    ensures { Answers operand_of (scope_of scope.new) result
        (expressions.operand (demand_of demand) (view.exp_of e.now) (scope_of scope.old)) }
{
    match e {
        CExp::Name(at, name) => at_node(*at, variable(alloc, scope, demand, name.as_str())),
        CExp::Number(at, n, decimal, unsigned, longs) => at_node(
            *at,
            number(scope.layout.target(), *n, *decimal, *unsigned, *longs),
        ),
        CExp::Character(_, c) => Ok(character(*c)),
        CExp::Parenthesis(_, inner) => operand(alloc, &**inner, scope, demand),
        CExp::Index(array, index) => {
            let at = first(array);
            let array = operand(alloc, &**array, scope, Demand::Element)?;
            let index = operand(alloc, &**index, scope, Demand::Value)?;
            element_at(alloc, at, &*scope, demand, array, index)
        }
        CExp::Member(whole, name) => {
            let at = first(whole);
            let whole = operand(alloc, &**whole, scope, Demand::Place)?;
            member_at(alloc, at, &*scope, demand, whole, name.as_str())
        }
        CExp::PointerMember(pointer, name) => {
            let at = first(pointer);
            let pointer = operand(alloc, &**pointer, scope, Demand::Value)?;
            pointer_member_at(alloc, at, &*scope, demand, pointer, name.as_str())
        }
        CExp::Unary(at, op, inner) => {
            let inner = operand(alloc, &**inner, scope, unary_demand(*op))?;
            unary_at(alloc, *at, &*scope, demand, *op, inner)
        }
        CExp::SizeofValue(at, inner) => {
            let inner = operand(alloc, &**inner, scope, Demand::Place)?;
            size_at(alloc, *at, &inner, scope)
        }
        CExp::SizeofType(at, words, stars) => {
            let base = base(alloc, &**words, scope)?;
            let ty = starred_at(alloc, &**words, stars.len(), base, &*scope)?;
            type_size_at(*at, &*scope, &ty)
        }
        CExp::Cast(at, words, stars, inner) => {
            let base = base(alloc, &**words, scope)?;
            let ty = starred_at(alloc, &**words, stars.len(), base, &*scope)?;
            let inner = operand(alloc, &**inner, scope, Demand::Value)?;
            cast_at(alloc, *at, &*scope, ty, inner)
        }
        CExp::Binary(op, left, right) => {
            let at = first(left);
            let left = operand(alloc, &**left, scope, Demand::Value)?;
            let right = operand(alloc, &**right, scope, Demand::Value)?;
            binary_at(alloc, at, &*scope, *op, left, right)
        }
        CExp::Conditional(test, left, right) => {
            let at = first(test);
            let test = operand(alloc, &**test, scope, Demand::Value)?;
            let left = operand(alloc, &**left, scope, Demand::Value)?;
            let right = operand(alloc, &**right, scope, Demand::Value)?;
            chosen_at(alloc, at, &*scope, test, left, right)
        }
    }
}
