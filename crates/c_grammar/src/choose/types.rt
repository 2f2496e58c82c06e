//! What the words of types, structs, enums and declarators make of a token.

ghost use Rattle.std.specs.Prelude.{◌≡◌, ◌∷◌, [], IfOk, false, reverse};
ghost use Rattle.c_lex.specs.Lexeme.{kind_of};
ghost use Rattle.c_grammar.specs.CodeFollows.{Follows};
ghost use Rattle.c_grammar.specs.CodeChoice as choice;
ghost use Rattle.c_grammar.specs.Operators as operators;

use super::{Answer, push_all, take};
use crate::symbol::{Production, Seen, Sign, Size, Symbol, Wanted};
use c_lex::{Keyword, Punct, TokenKind};
use std::alloc::AllocError;

/// Whether a type begins with the token; `typed` says that it is a name which a typedef made.
pub(super) fn starts_type(typed: bool, kind: &TokenKind) -> bool
    ensures { result ≡ choice.starts_type typed (kind_of kind.now) }
{
    match kind {
        TokenKind::Name(_) => typed,
        TokenKind::Keyword(
            Keyword::Const
            | Keyword::Static
            | Keyword::Inline
            | Keyword::Extern
            | Keyword::Char
            | Keyword::Enum
            | Keyword::Int
            | Keyword::Long
            | Keyword::Short
            | Keyword::Signed
            | Keyword::Struct
            | Keyword::Unsigned
            | Keyword::Void,
        ) => true,
        _ => false,
    }
}

fn pass_words(seen: Seen) -> Answer
    ensures { Follows (choice.pass_words seen) result [] [] }
{
    if seen.is_complete() {
        Answer::Passed
    } else {
        Answer::Refused
    }
}

/// A word that a type has only in the first place.
fn first_word(
    stack: &mut Vec<Symbol>,
    bodies: bool,
    seen: Seen,
    first: Symbol,
) -> Result<Answer, AllocError>
    ensures { IfOk result
        (λ answer.
        Follows (choice.first_word seen (choice.take (first ∷ choice.whole bodies))) answer
        (reverse stack.old.items) (reverse stack.new.items)) }
{
    match seen {
        Seen::Nothing => take(
            stack,
            &[
                first,
                Symbol::Words(bodies, Seen::Whole),
                Symbol::End(Production::MoreWords),
            ],
        ),
        _ => Ok(Answer::Refused),
    }
}

/// The words of a type, after those that have been seen.
pub(super) fn words(
    stack: &mut Vec<Symbol>,
    bodies: bool,
    seen: Seen,
    typed: bool,
    kind: &TokenKind,
) -> Result<Answer, AllocError>
    ensures { IfOk result
        (λ answer. Follows (choice.words bodies seen typed (kind_of kind.now)) answer
        (reverse stack.old.items) (reverse stack.new.items)) }
{
    match kind {
        TokenKind::Keyword(keyword) => match seen.with(*keyword) {
            Some(more) => take(
                stack,
                &[
                    Symbol::End(Production::Reserved),
                    Symbol::Words(bodies, more),
                    Symbol::End(Production::MoreWords),
                ],
            ),
            None => tag_word(stack, bodies, seen, *keyword),
        },
        TokenKind::Name(_) if typed => first_word(
            stack,
            bodies,
            seen,
            Symbol::End(Production::Named),
        ),
        _ => Ok(pass_words(seen)),
    }
}

/// A struct, an enum, or the end of the words.
fn tag_word(
    stack: &mut Vec<Symbol>,
    bodies: bool,
    seen: Seen,
    keyword: Keyword,
) -> Result<Answer, AllocError>
    ensures { IfOk result
        (λ answer. Follows (choice.tag_word bodies seen keyword) answer (reverse stack.old.items)
        (reverse stack.new.items)) }
{
    match keyword {
        Keyword::Struct => first_word(stack, bodies, seen, Symbol::StructTag(bodies)),
        Keyword::Enum => first_word(stack, bodies, seen, Symbol::EnumTag(bodies)),
        _ => Ok(pass_words(seen)),
    }
}

/// What follows `struct`.
pub(super) fn struct_tag(
    stack: &mut Vec<Symbol>,
    bodies: bool,
    typed: bool,
    kind: &TokenKind,
) -> Result<Answer, AllocError>
    ensures { IfOk result
        (λ answer. Follows (choice.struct_tag bodies typed (kind_of kind.now)) answer
        (reverse stack.old.items) (reverse stack.new.items)) }
{
    match kind {
        TokenKind::Name(_) => if typed {
            Ok(Answer::Refused)
        } else {
            take(stack, &[Symbol::StructBody(bodies)])
        },
        TokenKind::Punct(Punct::LeftBrace) => if bodies {
            take(
                stack,
                &[Symbol::Members, Symbol::End(Production::StructBody)],
            )
        } else {
            Ok(Answer::Refused)
        },
        _ => Ok(Answer::Refused),
    }
}

/// A body after the tag, or none.
pub(super) fn struct_body(
    stack: &mut Vec<Symbol>,
    bodies: bool,
    kind: &TokenKind,
) -> Result<Answer, AllocError>
    ensures { IfOk result
        (λ answer. Follows (choice.struct_body bodies (kind_of kind.now)) answer
        (reverse stack.old.items) (reverse stack.new.items)) }
{
    match kind {
        TokenKind::Punct(Punct::LeftBrace) => if bodies {
            take(
                stack,
                &[Symbol::Members, Symbol::End(Production::TaggedStruct)],
            )
        } else {
            Ok(Answer::Passed)
        },
        _ => Ok(Answer::Passed),
    }
}

/// What follows `enum`.
pub(super) fn enum_tag(
    stack: &mut Vec<Symbol>,
    bodies: bool,
    typed: bool,
    kind: &TokenKind,
) -> Result<Answer, AllocError>
    ensures { IfOk result
        (λ answer. Follows (choice.enum_tag bodies typed (kind_of kind.now)) answer
        (reverse stack.old.items) (reverse stack.new.items)) }
{
    match kind {
        TokenKind::Name(_) => if typed {
            Ok(Answer::Refused)
        } else {
            take(stack, &[Symbol::EnumBody(bodies)])
        },
        TokenKind::Punct(Punct::LeftBrace) => if bodies {
            take(
                stack,
                &[Symbol::Enumerators, Symbol::End(Production::EnumBody)],
            )
        } else {
            Ok(Answer::Refused)
        },
        _ => Ok(Answer::Refused),
    }
}

/// A body after the tag, or none.
pub(super) fn enum_body(
    stack: &mut Vec<Symbol>,
    bodies: bool,
    kind: &TokenKind,
) -> Result<Answer, AllocError>
    ensures { IfOk result
        (λ answer. Follows (choice.enum_body bodies (kind_of kind.now)) answer
        (reverse stack.old.items) (reverse stack.new.items)) }
{
    match kind {
        TokenKind::Punct(Punct::LeftBrace) => if bodies {
            take(
                stack,
                &[Symbol::Enumerators, Symbol::End(Production::TaggedEnum)],
            )
        } else {
            Ok(Answer::Passed)
        },
        _ => Ok(Answer::Passed),
    }
}

/// The members of a struct.
pub(super) fn members(
    stack: &mut Vec<Symbol>,
    typed: bool,
    kind: &TokenKind,
) -> Result<Answer, AllocError>
    ensures { IfOk result
        (λ answer. Follows (choice.members typed (kind_of kind.now)) answer
        (reverse stack.old.items) (reverse stack.new.items)) }
{
    push_all(
        stack,
        &[
            Symbol::Stars(false),
            Symbol::Identifier,
            Symbol::Dimensions(false),
            Symbol::End(Production::Declarator),
            Symbol::DeclaratorsMore,
            Symbol::MembersMore,
        ],
    )?;
    let answer = words(stack, false, Seen::Nothing, typed, kind)?;
    Ok(answer)
}

/// Further members, or `}`.
pub(super) fn members_more(
    stack: &mut Vec<Symbol>,
    typed: bool,
    kind: &TokenKind,
) -> Result<Answer, AllocError>
    ensures { IfOk result
        (λ answer. Follows (choice.members_more typed (kind_of kind.now)) answer
        (reverse stack.old.items) (reverse stack.new.items)) }
{
    match kind {
        TokenKind::Punct(Punct::RightBrace) => take(stack, &[Symbol::End(Production::LastMember)]),
        _ => further_members(stack, typed, kind),
    }
}

fn further_members(
    stack: &mut Vec<Symbol>,
    typed: bool,
    kind: &TokenKind,
) -> Result<Answer, AllocError>
    ensures { IfOk result
        (λ answer.
        Follows (choice.and_then (choice.words false Seen.Nothing typed (kind_of kind.now))
        (choice.declarator false
        (Symbol.DeclaratorsMore ∷ Symbol.MembersMore ∷ choice.end Production.MoreMembers ∷ [])))
        answer (reverse stack.old.items) (reverse stack.new.items)) }
{
    push_all(
        stack,
        &[
            Symbol::Stars(false),
            Symbol::Identifier,
            Symbol::Dimensions(false),
            Symbol::End(Production::Declarator),
            Symbol::DeclaratorsMore,
            Symbol::MembersMore,
            Symbol::End(Production::MoreMembers),
        ],
    )?;
    let answer = words(stack, false, Seen::Nothing, typed, kind)?;
    Ok(answer)
}

/// `,` and further declarators, or `;`.
pub(super) fn declarators_more(
    stack: &mut Vec<Symbol>,
    kind: &TokenKind,
) -> Result<Answer, AllocError>
    ensures { IfOk result
        (λ answer. Follows (choice.declarators_more (kind_of kind.now)) answer
        (reverse stack.old.items) (reverse stack.new.items)) }
{
    match kind {
        TokenKind::Punct(Punct::Comma) => take(
            stack,
            &[
                Symbol::Stars(false),
                Symbol::Identifier,
                Symbol::Dimensions(false),
                Symbol::End(Production::Declarator),
                Symbol::DeclaratorsMore,
                Symbol::End(Production::MoreDeclarators),
            ],
        ),
        TokenKind::Punct(Punct::Semicolon) => take(
            stack,
            &[Symbol::End(Production::LastDeclarator)],
        ),
        _ => Ok(Answer::Refused),
    }
}

/// Stars; after a star also `const`.
pub(super) fn stars(
    stack: &mut Vec<Symbol>,
    starred: bool,
    kind: &TokenKind,
) -> Result<Answer, AllocError>
    ensures { IfOk result
        (λ answer. Follows (choice.stars starred (kind_of kind.now)) answer
        (reverse stack.old.items) (reverse stack.new.items)) }
{
    match kind {
        TokenKind::Punct(Punct::Star) => take(
            stack,
            &[Symbol::Stars(true), Symbol::End(Production::MoreStars)],
        ),
        TokenKind::Keyword(Keyword::Const) => if starred {
            take(
                stack,
                &[Symbol::End(Production::StarConst), Symbol::Stars(true)],
            )
        } else {
            Ok(Answer::Passed)
        },
        _ => Ok(Answer::Passed),
    }
}

/// Array lengths in brackets.
pub(super) fn dimensions(
    stack: &mut Vec<Symbol>,
    bodies: bool,
    kind: &TokenKind,
) -> Result<Answer, AllocError>
    ensures { IfOk result
        (λ answer. Follows (choice.dimensions bodies (kind_of kind.now)) answer
        (reverse stack.old.items) (reverse stack.new.items)) }
{
    match kind {
        TokenKind::Punct(Punct::LeftBracket) => take(
            stack,
            &[
                Symbol::Expression(bodies, Wanted::Level(0)),
                Symbol::RightBracket,
                Symbol::Dimensions(bodies),
                Symbol::End(Production::MoreDimensions),
            ],
        ),
        _ => Ok(Answer::Passed),
    }
}

/// The enumerators of an enum.
pub(super) fn enumerators(
    stack: &mut Vec<Symbol>,
    typed: bool,
    kind: &TokenKind,
) -> Result<Answer, AllocError>
    ensures { IfOk result
        (λ answer. Follows (choice.enumerators typed (kind_of kind.now)) answer
        (reverse stack.old.items) (reverse stack.new.items)) }
{
    match kind {
        TokenKind::Name(_) => if typed {
            Ok(Answer::Refused)
        } else {
            take(stack, &[Symbol::EnumValue, Symbol::EnumMore])
        },
        _ => Ok(Answer::Refused),
    }
}

/// The value of an enumerator, or none.
pub(super) fn enum_value(stack: &mut Vec<Symbol>, kind: &TokenKind) -> Result<Answer, AllocError>
    ensures { IfOk result
        (λ answer. Follows (choice.enum_value (kind_of kind.now)) answer (reverse stack.old.items)
        (reverse stack.new.items)) }
{
    match kind {
        TokenKind::Punct(Punct::Equal) => take(
            stack,
            &[
                Symbol::Expression(true, Wanted::Level(0)),
                Symbol::End(Production::Explicit),
            ],
        ),
        _ => Ok(Answer::Passed),
    }
}

/// `,`, or `}`.
pub(super) fn enum_more(stack: &mut Vec<Symbol>, kind: &TokenKind) -> Result<Answer, AllocError>
    ensures { IfOk result
        (λ answer. Follows (choice.enum_more (kind_of kind.now)) answer (reverse stack.old.items)
        (reverse stack.new.items)) }
{
    match kind {
        TokenKind::Punct(Punct::Comma) => take(stack, &[Symbol::EnumNext]),
        TokenKind::Punct(Punct::RightBrace) => take(
            stack,
            &[Symbol::End(Production::LastEnumerator)],
        ),
        _ => Ok(Answer::Refused),
    }
}

/// What follows the `,`: a further enumerator, or `}`.
pub(super) fn enum_next(
    stack: &mut Vec<Symbol>,
    typed: bool,
    kind: &TokenKind,
) -> Result<Answer, AllocError>
    ensures { IfOk result
        (λ answer. Follows (choice.enum_next typed (kind_of kind.now)) answer
        (reverse stack.old.items) (reverse stack.new.items)) }
{
    match kind {
        TokenKind::Name(_) => if typed {
            Ok(Answer::Refused)
        } else {
            take(
                stack,
                &[
                    Symbol::EnumValue,
                    Symbol::EnumMore,
                    Symbol::End(Production::MoreEnumerators),
                ],
            )
        },
        TokenKind::Punct(Punct::RightBrace) => take(
            stack,
            &[Symbol::End(Production::LastEnumeratorComma)],
        ),
        _ => Ok(Answer::Refused),
    }
}
