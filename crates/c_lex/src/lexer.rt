//! The lexer: what stands at the front of a text, over and over.
ghost use Rattle.std.specs.Prelude.{◌≡◌, ℕ, ◌<◌, List, length, IfOk, IfErr, MatchResult, string_bytes};
ghost use Rattle.std.specs.List.{take_while};
ghost use Rattle.std.specs.Str.{IsAscii};
ghost use Rattle.c_lex.specs.Bytes.{is_word, is_numeral};
ghost use Rattle.c_lex.specs.Front.{front, word_front, number_front, character_front, comment_front, mark_front, bad_byte, bad_number, open_comment, unsupported, long_name};
ghost use Rattle.c_lex.specs.declared.fault.Unsupported.{Unsupported};
ghost use Rattle.c_lex.specs.Lexeme.{Lexeme, lexemes_of};
ghost use Rattle.c_lex.specs.Tokens.{Tokens, FaultAt};
ghost use Rattle.c_lex.specs.Answer.{Shows, IsFaultOf, IsRefused};

use crate::bytes::{after, byte_at, first, is_blank, is_letter, is_white};
use crate::characters::character;
use crate::fault::{LexFault, Unsupported};
use crate::gaps::{comment_length, is_line_mark, line_length};
use crate::numbers::{number, numeral_length};
use crate::puncts::punct_at;
use crate::token::{Token, TokenKind};
use crate::words::{keyword, unsupported, word_length};
use std::alloc::{AllocError, Global};

/// How many bytes a name has at most.
const LONGEST_NAME: usize = 63;

/// What stands at the front of a text.
#[derive(Drop)]
enum Piece {
    /// White space, a comment or a blank line; whether nothing but spaces and tabs stands before on the line then.
    Gap { length: usize, fresh: bool },
    /// A token.
    Token { kind: TokenKind, length: usize },
}

/// A text of its own for the bytes of a name.
fn name(alloc: Global, word: &[u8]) -> Result<String, AllocError>
    requires { IsAscii word.now }
    ensures { IfOk result (λ s. string_bytes s ≡ word.now) }
{
    match str::from_utf8(word) {
        Ok(word) => String::from_str(alloc, word),
        Err(_) => unreachable!(),
    }
}

/// A keyword, a word that is refused, or a name.
#[tactic(auto, unfolding(crate::specs::Front::word_front))]
fn word_piece(alloc: Global, text: &[u8], at: usize) -> Result<Piece, LexFault>
    ensures { Shows at (word_front (take_while is_word text.now)) result }
{
    let word = first(text, word_length(text));
    let length = word.len();
    if let Some(keyword) = keyword(word) {
        return Ok(Piece::Token {
            kind: TokenKind::Keyword(keyword),
            length,
        });
    }
    if let Some(word) = unsupported(word) {
        return Err(LexFault::Unsupported(word, at));
    }
    if length > LONGEST_NAME {
        return Err(LexFault::LongName(at));
    }
    let kind = TokenKind::Name(name(alloc, word)?);
    Ok(Piece::Token { kind, length })
}

/// A number.
#[tactic(auto, unfolding(crate::specs::Front::number_front))]
fn number_piece(text: &[u8], at: usize) -> Result<Piece, LexFault>
    ensures { Shows at (number_front (take_while is_numeral text.now)) result }
{
    let numeral = first(text, numeral_length(text));
    match number(numeral) {
        Some(kind) => Ok(Piece::Token {
            kind,
            length: numeral.len(),
        }),
        None => Err(LexFault::BadNumber(at)),
    }
}

/// A character constant, of what follows its opening quote.
#[tactic(auto, unfolding(crate::specs::Front::character_front))]
fn character_piece(text: &[u8], at: usize) -> Result<Piece, LexFault>
    ensures { Shows at (character_front text.now) result }
{
    match character(text) {
        Some((value, length)) => Ok(Piece::Token {
            kind: TokenKind::Character(value),
            length,
        }),
        None => Err(LexFault::BadByte(at)),
    }
}

/// A comment, of what follows its `/*`.
#[tactic(auto, unfolding(crate::specs::Front::comment_front))]
fn comment_piece(text: &[u8], at: usize) -> Result<Piece, LexFault>
    ensures { Shows at (comment_front text.now) result }
{
    match comment_length(text) {
        Some(length) => Ok(Piece::Gap {
            length: 2 + length,
            fresh: false,
        }),
        None => Err(LexFault::OpenComment(at)),
    }
}

/// A punctuator, or a mark that is refused.
#[tactic(auto, unfolding(crate::specs::Front::mark_front))]
fn mark_piece(text: &[u8], at: usize) -> Result<Piece, LexFault>
    ensures { Shows at (mark_front text.now) result }
{
    let byte = byte_at(text, 0);
    if byte == b'#' {
        return Err(LexFault::Unsupported(Unsupported::Hash, at));
    }
    if byte == b'"' {
        return Err(LexFault::Unsupported(Unsupported::StringQuote, at));
    }
    if byte == b'.' && byte_at(text, 1) == b'.' && byte_at(text, 2) == b'.' {
        return Err(LexFault::Unsupported(Unsupported::Ellipsis, at));
    }
    match punct_at(text) {
        Some(punct) => Ok(Piece::Token {
            kind: TokenKind::Punct(punct),
            length: punct.text().len(),
        }),
        None => Err(LexFault::BadByte(at)),
    }
}

/// What stands at the front of a text that begins at this offset of the whole.
#[tactic(auto, unfolding(crate::specs::Front::front))]
fn front_piece(alloc: Global, text: &[u8], fresh: bool, at: usize) -> Result<Piece, LexFault>
    requires { 0 < length text.now }
    ensures { Shows at (front fresh text.now) result }
{
    let byte = byte_at(text, 0);
    let next = byte_at(text, 1);
    if is_white(byte) {
        Ok(Piece::Gap {
            length: 1,
            fresh: byte == b'\n' || (is_blank(byte) && fresh),
        })
    } else if byte == b'/' && next == b'/' {
        Ok(Piece::Gap {
            length: line_length(text),
            fresh: false,
        })
    } else if byte == b'/' && next == b'*' {
        comment_piece(after(text, 2), at)
    } else if is_letter(byte) {
        word_piece(alloc, text, at)
    } else if byte.is_ascii_digit() {
        number_piece(text, at)
    } else if byte == b'\'' {
        character_piece(after(text, 1), at)
    } else if byte == b'#' && fresh && is_line_mark(after(text, 1)) {
        Ok(Piece::Gap {
            length: line_length(text),
            fresh: false,
        })
    } else {
        mark_piece(text, at)
    }
}

/// The tokens, or the first fault.
fn read(alloc: Global, text: &[u8]) -> Result<Vec<Token>, LexFault>
    ensures ok { IfOk result (λ v. Tokens text.now (lexemes_of v.items)) }
    ensures fault { IfErr result (IsFaultOf text.now) }
{
    let mut tokens = Vec::new(alloc);
    let mut at = 0;
    let mut fresh = true;
    while at < text.len() {
        match front_piece(alloc, after(text, at), fresh, at)? {
            Piece::Gap {
                length,
                fresh: still,
            } => {
                at += length;
                fresh = still;
            }
            Piece::Token { kind, length } => {
                tokens.push(Token {
                    kind,
                    start: at,
                    end: at + length,
                })?;
                at += length;
                fresh = false;
            }
        }
    }
    Ok(tokens)
}

/// The tokens of a C text, in order.
///
/// An error tells the first place where no token stands, and why; or that memory ran out.
pub fn tokens(alloc: Global, text: &[u8]) -> Result<Vec<Token>, LexFault>
    // Ok is the tokens of the text, all of it, and where the text has tokens, it is these, unless memory runs out.
    ensures found { IfOk result (λ v. Tokens text.now (lexemes_of v.items)) }
    ensures only { (ts : List Lexeme) → Tokens text.now ts →
        MatchResult result (λ v. lexemes_of v.items ≡ ts) (λ e. e ≡ LexFault.Memory) }

    // An error is the first fault of the text ..
    ensures fault { IfErr result (IsFaultOf text.now) }

    // .. and the first fault of the text is the error, unless memory runs out.
    ensures bad_byte { (at : ℕ) → FaultAt text.now bad_byte at →
        IsRefused result (LexFault.BadByte at) }
    ensures bad_number { (at : ℕ) → FaultAt text.now bad_number at →
        IsRefused result (LexFault.BadNumber at) }
    ensures open_comment { (at : ℕ) → FaultAt text.now open_comment at →
        IsRefused result (LexFault.OpenComment at) }
    ensures unsupported { (word : Unsupported) → (at : ℕ) → FaultAt text.now (unsupported word) at →
        IsRefused result (LexFault.Unsupported word at) }
    ensures long_name { (at : ℕ) → FaultAt text.now long_name at →
        IsRefused result (LexFault.LongName at) }
{
    read(alloc, text)
}
