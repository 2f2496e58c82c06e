//! The words of a type and of its storage: what they say, and which type that is.

ghost use Rattle.std.specs.Prelude.{◌≡◌, IfOk};
ghost use Rattle.std.specs.Option.{option_map};
ghost use Rattle.c_grammar.specs.CodeTree.{word_of, words_of};
ghost use Rattle.c_values.specs.CodeTypes.{int_type_of, type_of};
ghost use Rattle.typing_rules.specs.CodeAnswers.{RulesAs};
ghost use Rattle.typing_rules.specs.CodeWords.{part_of, named_of, specs_of, base_of, signedness_of};
ghost use Rattle.typing_rules.specs.Declarations as declarations;
ghost use Rattle.typing_rules.specs.Expressions as expressions;

use crate::fault::TypeKind;
use crate::rulings::Refusal;
use c_grammar::tree::{Word, Words};
use c_lex::Keyword;
use c_values::{CType, IntType};
use std::alloc::{AllocError, Global};

/// How often a word stands, as far as that matters.
#[derive(Clone, Copy, Debug, PartialEq, Eq)]
pub enum Times {
    Never,
    Once,
    Twice,
    More,
}

impl Times {
    // Once more.
    fn again(self) -> Times
        ensures { result ≡ declarations.again self }
    {
        match self {
            Times::Never => Times::Once,
            Times::Once => Times::Twice,
            Times::Twice | Times::More => Times::More,
        }
    }
}

/// How often each word of an integer type stands.
#[derive(Clone, Copy, Debug)]
pub struct Integers {
    pub chars: Times,
    pub shorts: Times,
    pub ints: Times,
    pub longs: Times,
    pub signeds: Times,
    pub unsigneds: Times,
}

/// The types among the words that aren't made of integer words.
#[derive(Debug, Drop)]
pub enum Named {
    None,
    One(CType),
    Several,
}

/// What one word says.
#[derive(Debug, Drop)]
pub enum Part {
    Word(Keyword),
    Type(CType),
}

/// What the words of a type and its storage say.
#[derive(Debug, Drop)]
pub struct Specs {
    pub integers: Integers,
    /// Whether there is an integer word.
    pub has_integers: bool,
    pub named: Named,
    pub is_static: bool,
    pub is_extern: bool,
}

/// A type, and whether `static` or `extern` stands beside it.
#[derive(Debug, Drop)]
pub struct Base {
    pub ty: CType,
    pub is_static: bool,
    pub is_extern: bool,
}

impl Specs {
    /// Before the first word.
    pub fn none() -> Specs
        ensures { specs_of result ≡ declarations.no_specs }
    {
        Specs {
            integers: Integers {
                chars: Times::Never,
                shorts: Times::Never,
                ints: Times::Never,
                longs: Times::Never,
                signeds: Times::Never,
                unsigneds: Times::Never,
            },
            has_integers: false,
            named: Named::None,
            is_static: false,
            is_extern: false,
        }
    }

    /// One word more.
    pub fn with_part(self, part: Part) -> Specs
        ensures { specs_of result ≡ declarations.with_part (specs_of self) (part_of part) }
    {
        match part {
            Part::Word(keyword) => self.with_keyword(keyword),
            Part::Type(ty) => self.with_type(ty),
        }
    }

    fn with_type(self, ty: CType) -> Specs
        ensures { specs_of result ≡ declarations.with_type (specs_of self) (type_of ty) }
    {
        Specs {
            integers: self.integers,
            has_integers: self.has_integers,
            named: with_named(self.named, ty),
            is_static: self.is_static,
            is_extern: self.is_extern,
        }
    }

    fn with_keyword(self, keyword: Keyword) -> Specs
        ensures { specs_of result ≡ declarations.with_keyword (specs_of self) keyword }
    {
        let n = self.integers;
        match keyword {
            Keyword::Char => self.with_integers(Integers {
                chars: n.chars.again(),
                ..n
            }),
            Keyword::Short => self.with_integers(Integers {
                shorts: n.shorts.again(),
                ..n
            }),
            Keyword::Int => self.with_integers(Integers {
                ints: n.ints.again(),
                ..n
            }),
            Keyword::Long => self.with_integers(Integers {
                longs: n.longs.again(),
                ..n
            }),
            Keyword::Signed => self.with_integers(Integers {
                signeds: n.signeds.again(),
                ..n
            }),
            Keyword::Unsigned => self.with_integers(Integers {
                unsigneds: n.unsigneds.again(),
                ..n
            }),
            Keyword::Void => self.with_type(CType::Void),
            Keyword::Static => self.with_storage(true, false),
            Keyword::Extern => self.with_storage(false, true),
            _ => self,
        }
    }

    fn with_integers(self, integers: Integers) -> Specs
        ensures { specs_of result ≡ declarations.with_integers (specs_of self) integers }
    {
        Specs {
            integers,
            has_integers: true,
            named: self.named,
            is_static: self.is_static,
            is_extern: self.is_extern,
        }
    }

    fn with_storage(self, is_static: bool, is_extern: bool) -> Specs
        ensures { specs_of result ≡ declarations.with_storage (specs_of self) is_static is_extern }
    {
        Specs {
            integers: self.integers,
            has_integers: self.has_integers,
            named: self.named,
            is_static: self.is_static || is_static,
            is_extern: self.is_extern || is_extern,
        }
    }

    /// The type that the words write.
    pub fn base(self) -> Result<Base, Refusal>
        ensures { RulesAs base_of result (declarations.base (specs_of self)) }
    {
        let ty = base_type(self.has_integers, self.integers, self.named)?;
        Ok(Base {
            ty,
            is_static: self.is_static,
            is_extern: self.is_extern,
        })
    }
}

fn with_named(named: Named, ty: CType) -> Named
    ensures { named_of result ≡ declarations.with_named (named_of named) (type_of ty) }
{
    match named {
        Named::None => Named::One(ty),
        Named::One(_) | Named::Several => Named::Several,
    }
}

// One type, or integer words that write one.
fn base_type(has_integers: bool, integers: Integers, named: Named) -> Result<CType, Refusal>
    ensures { RulesAs type_of result
        (declarations.base_type has_integers integers (named_of named)) }
{
    match named {
        Named::One(ty) if !has_integers => Ok(ty),
        Named::None if has_integers => match integer_type(integers) {
            Some(ty) => Ok(CType::Int(ty)),
            None => Err(Refusal::Kind(TypeKind::OutOfSubset)),
        },
        _ => Err(Refusal::Kind(TypeKind::OutOfSubset)),
    }
}

/// No `signed` or `unsigned`, or one of these.
#[derive(Clone, Copy, Debug, PartialEq, Eq)]
pub enum Signedness {
    Plain,
    Signed,
    Unsigned,
}

// The type that integer words write.
fn integer_type(n: Integers) -> Option<IntType>
    ensures { option_map int_type_of result ≡ declarations.integer_type n }
{
    let signedness = sign_among(n.signeds, n.unsigneds)?;
    if fits_int(n.ints, n.chars) {
        sized(signedness, n.chars, n.shorts, n.longs)
    } else {
        None
    }
}

// Whether `int` stands at most once, and not beside `char`.
fn fits_int(ints: Times, chars: Times) -> bool
    ensures { result ≡ declarations.fits_int ints chars }
{
    match (ints, chars) {
        (Times::Never, _) | (Times::Once, Times::Never) => true,
        _ => false,
    }
}

fn sign_among(signeds: Times, unsigneds: Times) -> Option<Signedness>
    ensures { option_map signedness_of result ≡ declarations.signedness signeds unsigneds }
{
    match (signeds, unsigneds) {
        (Times::Never, Times::Never) => Some(Signedness::Plain),
        (Times::Once, Times::Never) => Some(Signedness::Signed),
        (Times::Never, Times::Once) => Some(Signedness::Unsigned),
        _ => None,
    }
}

fn sized(signedness: Signedness, chars: Times, shorts: Times, longs: Times) -> Option<IntType>
    ensures { option_map int_type_of result
        ≡ declarations.sized (signedness_of signedness) chars shorts longs }
{
    match (chars, shorts, longs) {
        (Times::Never, Times::Never, Times::Never) => Some(int_type(signedness)),
        (Times::Once, Times::Never, Times::Never) => Some(char_type(signedness)),
        (Times::Never, Times::Once, Times::Never) => Some(short_type(signedness)),
        (Times::Never, Times::Never, Times::Once) => Some(long_type(signedness)),
        (Times::Never, Times::Never, Times::Twice) => Some(long_long_type(signedness)),
        _ => None,
    }
}

fn char_type(signedness: Signedness) -> IntType
    ensures { int_type_of result ≡ declarations.char_type (signedness_of signedness) }
{
    match signedness {
        Signedness::Plain => IntType::Char,
        Signedness::Signed => IntType::SChar,
        Signedness::Unsigned => IntType::UChar,
    }
}

fn short_type(signedness: Signedness) -> IntType
    ensures { int_type_of result ≡ declarations.short_type (signedness_of signedness) }
{
    match signedness {
        Signedness::Plain | Signedness::Signed => IntType::Short,
        Signedness::Unsigned => IntType::UShort,
    }
}

fn int_type(signedness: Signedness) -> IntType
    ensures { int_type_of result ≡ declarations.int_type (signedness_of signedness) }
{
    match signedness {
        Signedness::Plain | Signedness::Signed => IntType::Int,
        Signedness::Unsigned => IntType::UInt,
    }
}

fn long_type(signedness: Signedness) -> IntType
    ensures { int_type_of result ≡ declarations.long_type (signedness_of signedness) }
{
    match signedness {
        Signedness::Plain | Signedness::Signed => IntType::Long,
        Signedness::Unsigned => IntType::ULong,
    }
}

fn long_long_type(signedness: Signedness) -> IntType
    ensures { int_type_of result ≡ declarations.long_long_type (signedness_of signedness) }
{
    match signedness {
        Signedness::Plain | Signedness::Signed => IntType::LLong,
        Signedness::Unsigned => IntType::ULLong,
    }
}

/// Where the words begin.
pub fn words_start(words: &Words) -> usize
    ensures { result ≡ expressions.words_start (words_of words.now) }
{
    match words {
        Words::None => 0,
        Words::More(word, _) => word_start(&**word),
    }
}

/// Where the type among the words begins: its first word that isn't of storage.
pub fn type_start(words: &Words) -> usize
    ensures { result ≡ expressions.type_start (words_of words.now) }
{
    let mut rest = words;
    while let Words::More(word, more) = rest {
        if !is_storage(&**word) {
            return word_start(&**word);
        }
        rest = &**more;
    }
    0
}

fn word_start(word: &Word) -> usize
    ensures { result ≡ expressions.word_start (word_of word.now) }
{
    match word {
        Word::Reserved(at, _)
        | Word::Named(at, _)
        | Word::StructTag(at, _)
        | Word::StructBody(at, _, _)
        | Word::EnumTag(at, _)
        | Word::EnumBody(at, _, _) => *at,
    }
}

fn is_storage(word: &Word) -> bool
    ensures { result ≡ expressions.is_storage (word_of word.now) }
{
    match word {
        Word::Reserved(_, keyword) => matches!(
            *keyword,
            Keyword::Const | Keyword::Static | Keyword::Inline | Keyword::Extern
        ),
        _ => false,
    }
}

/// A type with stars around it.
pub fn pointers(alloc: Global, stars: usize, ty: CType) -> Result<CType, AllocError>
    ensures { IfOk result (λ t. type_of t ≡ declarations.pointers stars (type_of ty)) }
{
    let mut pointer = ty;
    for _ in 0..stars {
        pointer = CType::Ptr(Box::new(alloc, pointer)?);
    }
    Ok(pointer)
}
