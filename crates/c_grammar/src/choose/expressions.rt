//! What expressions make of a token.

ghost use Rattle.std.specs.Prelude.{◌≡◌, ◌∷◌, ◌++◌, [], IfOk, reverse};
ghost use Rattle.c_lex.specs.Lexeme.{kind_of};
ghost use Rattle.c_grammar.specs.CodeFollows.{Follows};
ghost use Rattle.c_grammar.specs.CodeChoice as choice;
ghost use Rattle.c_grammar.specs.Operators as operators;

use super::types::{starts_type, words};
use super::{Answer, push_all, take};
use crate::operator::{BinaryOperator, StepOperator, UnaryOperator};
use crate::symbol::{Production, Seen, Symbol, Wanted};
use c_lex::{Keyword, Punct, TokenKind};
use std::alloc::AllocError;

/// An operator before its operand.
fn unary(
    stack: &mut Vec<Symbol>,
    bodies: bool,
    wanted: Wanted,
    operator: UnaryOperator,
) -> Result<Answer, AllocError>
    ensures { IfOk result
        (λ answer. Follows (choice.unary_choice bodies wanted operator) answer
        (reverse stack.old.items) (reverse stack.new.items)) }
{
    if wanted.least() <= 12 {
        take(
            stack,
            &[
                Symbol::Expression(bodies, Wanted::Level(11)),
                Symbol::End(Production::Unary(operator)),
                Symbol::Tail(bodies, wanted, 12),
            ],
        )
    } else {
        Ok(Answer::Refused)
    }
}

/// The first token of an expression.
pub(super) fn operand(
    stack: &mut Vec<Symbol>,
    bodies: bool,
    wanted: Wanted,
    typed: bool,
    kind: &TokenKind,
) -> Result<Answer, AllocError>
    ensures { IfOk result
        (λ answer. Follows (choice.operand bodies wanted typed (kind_of kind.now)) answer
        (reverse stack.old.items) (reverse stack.new.items)) }
{
    match kind {
        TokenKind::Name(_) => if typed {
            Ok(Answer::Refused)
        } else {
            take(
                stack,
                &[
                    Symbol::End(Production::Name),
                    Symbol::Tail(bodies, wanted, 15),
                ],
            )
        },
        TokenKind::Number { .. } => take(
            stack,
            &[
                Symbol::End(Production::Number),
                Symbol::Tail(bodies, wanted, 14),
            ],
        ),
        TokenKind::Character(_) => take(
            stack,
            &[
                Symbol::End(Production::Character),
                Symbol::Tail(bodies, wanted, 14),
            ],
        ),
        TokenKind::Punct(Punct::LeftParenthesis) => take(stack, &[Symbol::Open(bodies, wanted)]),
        TokenKind::Punct(Punct::Minus) => unary(stack, bodies, wanted, UnaryOperator::Negate),
        TokenKind::Punct(Punct::Plus) => unary(stack, bodies, wanted, UnaryOperator::Plus),
        TokenKind::Punct(Punct::Tilde) => unary(stack, bodies, wanted, UnaryOperator::Complement),
        TokenKind::Punct(Punct::Exclamation) => unary(stack, bodies, wanted, UnaryOperator::Not),
        TokenKind::Punct(Punct::Star) => unary(stack, bodies, wanted, UnaryOperator::Dereference),
        TokenKind::Punct(Punct::Ampersand) => unary(stack, bodies, wanted, UnaryOperator::Address),
        TokenKind::Keyword(Keyword::Sizeof) => if wanted.least() <= 12 {
            take(
                stack,
                &[
                    Symbol::Expression(bodies, Wanted::Sized),
                    Symbol::Tail(bodies, wanted, 12),
                ],
            )
        } else {
            Ok(Answer::Refused)
        },
        _ => Ok(Answer::Refused),
    }
}

/// What follows the `(` of an operand.
pub(super) fn opened(
    stack: &mut Vec<Symbol>,
    bodies: bool,
    wanted: Wanted,
    typed: bool,
    kind: &TokenKind,
) -> Result<Answer, AllocError>
    ensures { IfOk result
        (λ answer. Follows (choice.opened bodies wanted typed (kind_of kind.now)) answer
        (reverse stack.old.items) (reverse stack.new.items)) }
{
    if starts_type(typed, kind) {
        open_type(stack, bodies, wanted, typed, kind)
    } else {
        open_value(stack, bodies, wanted, typed, kind)
    }
}

/// A type name in parentheses, and what follows it.
fn open_type(
    stack: &mut Vec<Symbol>,
    bodies: bool,
    wanted: Wanted,
    typed: bool,
    kind: &TokenKind,
) -> Result<Answer, AllocError>
    ensures { IfOk result
        (λ answer. Follows (choice.open_type bodies wanted typed (kind_of kind.now)) answer
        (reverse stack.old.items) (reverse stack.new.items)) }
{
    if !wanted.may_open_type() {
        return Ok(Answer::Refused);
    }
    open_rest(stack, bodies, wanted)?;
    push_all(
        stack,
        &[
            Symbol::Stars(false),
            Symbol::End(Production::TypeName),
            Symbol::RightParenthesis,
        ],
    )?;
    let answer = words(stack, bodies, Seen::Nothing, typed, kind)?;
    Ok(answer)
}

/// What follows a type name in parentheses: the end of a `sizeof`, or the operand of a cast.
fn open_rest(stack: &mut Vec<Symbol>, bodies: bool, wanted: Wanted) -> Result<(), AllocError>
    ensures { IfOk result
        (λ _. reverse stack.new.items ≡ choice.open_rest bodies wanted ++ reverse stack.old.items) }
{
    match wanted {
        Wanted::Sized => push_all(stack, &[Symbol::End(Production::SizeofType)]),
        _ => push_all(
            stack,
            &[
                Symbol::Expression(bodies, Wanted::Level(11)),
                Symbol::End(Production::Cast),
                Symbol::Tail(bodies, wanted, 11),
            ],
        ),
    }
}

/// An expression in parentheses.
fn open_value(
    stack: &mut Vec<Symbol>,
    bodies: bool,
    wanted: Wanted,
    typed: bool,
    kind: &TokenKind,
) -> Result<Answer, AllocError>
    ensures { IfOk result
        (λ answer. Follows (choice.open_value bodies wanted typed (kind_of kind.now)) answer
        (reverse stack.old.items) (reverse stack.new.items)) }
{
    push_all(
        stack,
        &[
            Symbol::RightParenthesis,
            Symbol::End(Production::Parenthesis),
            Symbol::Tail(bodies, wanted, 14),
        ],
    )?;
    let answer = operand(stack, bodies, Wanted::Level(0), typed, kind)?;
    Ok(answer)
}

/// What follows an operand, where it is no operator.
fn tail_end(
    stack: &mut Vec<Symbol>,
    bodies: bool,
    wanted: Wanted,
    reached: u8,
    kind: &TokenKind,
) -> Result<Answer, AllocError>
    ensures { IfOk result
        (λ answer. Follows (choice.tail_end bodies wanted reached (kind_of kind.now)) answer
        (reverse stack.old.items) (reverse stack.new.items)) }
{
    match wanted {
        Wanted::Level(_) | Wanted::Sized => Ok(Answer::Passed),
        Wanted::Right => match kind {
            TokenKind::Punct(Punct::LeftParenthesis) => if reached == 15 {
                take(
                    stack,
                    &[
                        Symbol::Arguments(bodies),
                        Symbol::End(Production::Call),
                        Symbol::End(Production::CallValue),
                    ],
                )
            } else {
                Ok(Answer::Refused)
            },
            _ => Ok(Answer::Passed),
        },
        Wanted::Place => place_end(stack, bodies, reached, kind),
    }
}

/// What follows the place of a simple statement.
fn place_end(
    stack: &mut Vec<Symbol>,
    bodies: bool,
    reached: u8,
    kind: &TokenKind,
) -> Result<Answer, AllocError>
    ensures { IfOk result
        (λ answer. Follows (choice.tail_end bodies Wanted.Place reached (kind_of kind.now)) answer
        (reverse stack.old.items) (reverse stack.new.items)) }
{
    match kind {
        TokenKind::Punct(Punct::LeftParenthesis) => if reached == 15 {
            take(
                stack,
                &[
                    Symbol::Arguments(bodies),
                    Symbol::End(Production::Call),
                    Symbol::End(Production::Invoke),
                ],
            )
        } else {
            Ok(Answer::Refused)
        },
        TokenKind::Punct(Punct::PlusPlus) => if reached >= 13 {
            take(
                stack,
                &[Symbol::End(Production::After(StepOperator::Increment))],
            )
        } else {
            Ok(Answer::Refused)
        },
        TokenKind::Punct(Punct::MinusMinus) => if reached >= 13 {
            take(
                stack,
                &[Symbol::End(Production::After(StepOperator::Decrement))],
            )
        } else {
            Ok(Answer::Refused)
        },
        TokenKind::Punct(Punct::Equal) => if reached >= 12 {
            take(
                stack,
                &[
                    Symbol::Expression(bodies, Wanted::Right),
                    Symbol::End(Production::Assign),
                ],
            )
        } else {
            Ok(Answer::Refused)
        },
        TokenKind::Punct(Punct::StarEqual) => update(
            stack,
            bodies,
            reached,
            BinaryOperator::Multiply,
        ),
        TokenKind::Punct(Punct::SlashEqual) => update(
            stack,
            bodies,
            reached,
            BinaryOperator::Divide,
        ),
        TokenKind::Punct(Punct::PercentEqual) => update(
            stack,
            bodies,
            reached,
            BinaryOperator::Remainder,
        ),
        TokenKind::Punct(Punct::PlusEqual) => update(stack, bodies, reached, BinaryOperator::Add),
        TokenKind::Punct(Punct::MinusEqual) => update(
            stack,
            bodies,
            reached,
            BinaryOperator::Subtract,
        ),
        TokenKind::Punct(Punct::LessLessEqual) => update(
            stack,
            bodies,
            reached,
            BinaryOperator::ShiftLeft,
        ),
        TokenKind::Punct(Punct::GreaterGreaterEqual) => update(
            stack,
            bodies,
            reached,
            BinaryOperator::ShiftRight,
        ),
        TokenKind::Punct(Punct::AmpersandEqual) => update(
            stack,
            bodies,
            reached,
            BinaryOperator::And,
        ),
        TokenKind::Punct(Punct::CaretEqual) => update(
            stack,
            bodies,
            reached,
            BinaryOperator::ExclusiveOr,
        ),
        TokenKind::Punct(Punct::BarEqual) => update(stack, bodies, reached, BinaryOperator::Or),
        _ => Ok(Answer::Refused),
    }
}

/// An assignment such as `+=`.
fn update(
    stack: &mut Vec<Symbol>,
    bodies: bool,
    reached: u8,
    operator: BinaryOperator,
) -> Result<Answer, AllocError>
    ensures { IfOk result
        (λ answer. Follows (choice.update_choice bodies reached operator) answer
        (reverse stack.old.items) (reverse stack.new.items)) }
{
    if reached >= 12 {
        take(
            stack,
            &[
                Symbol::Expression(bodies, Wanted::Level(0)),
                Symbol::End(Production::Update(operator)),
            ],
        )
    } else {
        Ok(Answer::Refused)
    }
}

/// What follows an operand of the level that was reached.
pub(super) fn tail(
    stack: &mut Vec<Symbol>,
    bodies: bool,
    wanted: Wanted,
    reached: u8,
    kind: &TokenKind,
) -> Result<Answer, AllocError>
    ensures { IfOk result
        (λ answer. Follows (choice.tail bodies wanted reached (kind_of kind.now)) answer
        (reverse stack.old.items) (reverse stack.new.items)) }
{
    match kind {
        TokenKind::Punct(Punct::LeftBracket) if reached >= 13 => take(
            stack,
            &[
                Symbol::Expression(bodies, Wanted::Level(0)),
                Symbol::RightBracket,
                Symbol::End(Production::Index),
                Symbol::Tail(bodies, wanted, 13),
            ],
        ),
        TokenKind::Punct(Punct::Dot) if reached >= 13 => take(
            stack,
            &[
                Symbol::Identifier,
                Symbol::End(Production::Member),
                Symbol::Tail(bodies, wanted, 13),
            ],
        ),
        TokenKind::Punct(Punct::Arrow) if reached >= 13 => take(
            stack,
            &[
                Symbol::Identifier,
                Symbol::End(Production::PointerMember),
                Symbol::Tail(bodies, wanted, 13),
            ],
        ),
        TokenKind::Punct(Punct::Question) if wanted.least() == 0 && reached >= 1 => take(
            stack,
            &[
                Symbol::Expression(bodies, Wanted::Level(0)),
                Symbol::Colon,
                Symbol::Expression(bodies, Wanted::Level(0)),
                Symbol::End(Production::Conditional),
                Symbol::Tail(bodies, wanted, 0),
            ],
        ),
        TokenKind::Punct(Punct::Star) => binary(
            stack,
            bodies,
            wanted,
            reached,
            BinaryOperator::Multiply,
            kind,
        ),
        TokenKind::Punct(Punct::Slash) => binary(
            stack,
            bodies,
            wanted,
            reached,
            BinaryOperator::Divide,
            kind,
        ),
        TokenKind::Punct(Punct::Percent) => binary(
            stack,
            bodies,
            wanted,
            reached,
            BinaryOperator::Remainder,
            kind,
        ),
        TokenKind::Punct(Punct::Plus) => binary(
            stack,
            bodies,
            wanted,
            reached,
            BinaryOperator::Add,
            kind,
        ),
        TokenKind::Punct(Punct::Minus) => binary(
            stack,
            bodies,
            wanted,
            reached,
            BinaryOperator::Subtract,
            kind,
        ),
        TokenKind::Punct(Punct::LessLess) => binary(
            stack,
            bodies,
            wanted,
            reached,
            BinaryOperator::ShiftLeft,
            kind,
        ),
        TokenKind::Punct(Punct::GreaterGreater) => binary(
            stack,
            bodies,
            wanted,
            reached,
            BinaryOperator::ShiftRight,
            kind,
        ),
        TokenKind::Punct(Punct::Ampersand) => binary(
            stack,
            bodies,
            wanted,
            reached,
            BinaryOperator::And,
            kind,
        ),
        TokenKind::Punct(Punct::Caret) => binary(
            stack,
            bodies,
            wanted,
            reached,
            BinaryOperator::ExclusiveOr,
            kind,
        ),
        TokenKind::Punct(Punct::Bar) => binary(
            stack,
            bodies,
            wanted,
            reached,
            BinaryOperator::Or,
            kind,
        ),
        TokenKind::Punct(Punct::Less) => binary(
            stack,
            bodies,
            wanted,
            reached,
            BinaryOperator::Less,
            kind,
        ),
        TokenKind::Punct(Punct::Greater) => binary(
            stack,
            bodies,
            wanted,
            reached,
            BinaryOperator::Greater,
            kind,
        ),
        TokenKind::Punct(Punct::LessEqual) => binary(
            stack,
            bodies,
            wanted,
            reached,
            BinaryOperator::LessEqual,
            kind,
        ),
        TokenKind::Punct(Punct::GreaterEqual) => binary(
            stack,
            bodies,
            wanted,
            reached,
            BinaryOperator::GreaterEqual,
            kind,
        ),
        TokenKind::Punct(Punct::EqualEqual) => binary(
            stack,
            bodies,
            wanted,
            reached,
            BinaryOperator::Equal,
            kind,
        ),
        TokenKind::Punct(Punct::ExclamationEqual) => binary(
            stack,
            bodies,
            wanted,
            reached,
            BinaryOperator::NotEqual,
            kind,
        ),
        TokenKind::Punct(Punct::AmpersandAmpersand) => binary(
            stack,
            bodies,
            wanted,
            reached,
            BinaryOperator::LogicalAnd,
            kind,
        ),
        TokenKind::Punct(Punct::BarBar) => binary(
            stack,
            bodies,
            wanted,
            reached,
            BinaryOperator::LogicalOr,
            kind,
        ),
        _ => tail_end(stack, bodies, wanted, reached, kind),
    }
}

/// An operator between operands, where it binds here.
fn binary(
    stack: &mut Vec<Symbol>,
    bodies: bool,
    wanted: Wanted,
    reached: u8,
    operator: BinaryOperator,
    kind: &TokenKind,
) -> Result<Answer, AllocError>
    ensures { IfOk result
        (λ answer.
        Follows (choice.binary_choice bodies wanted reached operator (kind_of kind.now)) answer
        (reverse stack.old.items) (reverse stack.new.items)) }
{
    let level = operator.level();
    if wanted.least() <= level && level <= reached {
        take(
            stack,
            &[
                Symbol::Expression(bodies, Wanted::Level(level + 1)),
                Symbol::End(Production::Binary(operator)),
                Symbol::Tail(bodies, wanted, level),
            ],
        )
    } else {
        tail_end(stack, bodies, wanted, reached, kind)
    }
}

/// The arguments of a call.
pub(super) fn arguments(
    stack: &mut Vec<Symbol>,
    bodies: bool,
    typed: bool,
    kind: &TokenKind,
) -> Result<Answer, AllocError>
    ensures { IfOk result
        (λ answer. Follows (choice.arguments bodies typed (kind_of kind.now)) answer
        (reverse stack.old.items) (reverse stack.new.items)) }
{
    match kind {
        TokenKind::Punct(Punct::RightParenthesis) => take(
            stack,
            &[Symbol::End(Production::NoArguments)],
        ),
        _ => first_argument(stack, bodies, typed, kind),
    }
}

fn first_argument(
    stack: &mut Vec<Symbol>,
    bodies: bool,
    typed: bool,
    kind: &TokenKind,
) -> Result<Answer, AllocError>
    ensures { IfOk result
        (λ answer.
        Follows (choice.and_then (choice.operand bodies (Wanted.Level 0) typed (kind_of kind.now))
        (Symbol.ArgumentsMore bodies ∷ [])) answer (reverse stack.old.items)
        (reverse stack.new.items)) }
{
    push_all(stack, &[Symbol::ArgumentsMore(bodies)])?;
    let answer = operand(stack, bodies, Wanted::Level(0), typed, kind)?;
    Ok(answer)
}

/// `,` and further arguments, or `)`.
pub(super) fn arguments_more(
    stack: &mut Vec<Symbol>,
    bodies: bool,
    kind: &TokenKind,
) -> Result<Answer, AllocError>
    ensures { IfOk result
        (λ answer. Follows (choice.arguments_more bodies (kind_of kind.now)) answer
        (reverse stack.old.items) (reverse stack.new.items)) }
{
    match kind {
        TokenKind::Punct(Punct::RightParenthesis) => take(
            stack,
            &[Symbol::End(Production::LastArgument)],
        ),
        TokenKind::Punct(Punct::Comma) => take(
            stack,
            &[
                Symbol::Expression(bodies, Wanted::Level(0)),
                Symbol::ArgumentsMore(bodies),
                Symbol::End(Production::MoreArguments),
            ],
        ),
        _ => Ok(Answer::Refused),
    }
}
