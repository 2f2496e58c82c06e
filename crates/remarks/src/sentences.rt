//! What is said of each kind of fault in a C text.

ghost use Rattle.std.specs.Prelude.{◌≡◌};
ghost use Rattle.remarks.specs.Sentences.{sentence, unsupported_sentence, limit_sentence, kind_sentence};

use crate::fault::Cause;
use c_lex::Unsupported;
use c_limits::Limit;
use typing_rules::TypeKind;

/// What is wrong, and where it helps what to write in its place.
pub(crate) fn sentence(cause: Cause) -> &'static str
    ensures { result.now ≡ sentence cause }
{
    match cause {
        Cause::BadByte =>
            "no token begins here: this isn't a character of C outside comments, or its quote isn't that of one ASCII character",
        Cause::BadNumber =>
            "this is no integer constant, or none that 64 bits hold; there are no floating constants",
        Cause::OpenComment => "this comment isn't ended: write */ behind it",
        Cause::Unsupported(word) => unsupported_sentence(word),
        Cause::LongName => "this name has more than 63 characters: choose a shorter one",
        Cause::Syntax =>
            "this can't stand here, or more has to follow: in the subset assignments, `++`, `--` and calls stand in no expression",
        Cause::Limit(limit) => limit_sentence(limit),
        Cause::Typing(kind) => kind_sentence(kind),
    }
}

fn unsupported_sentence(word: Unsupported) -> &'static str
    ensures { result.now ≡ unsupported_sentence word }
{
    match word {
        Unsupported::Asm => "there is no assembly in the subset",
        Unsupported::Auto => "`auto` isn't in the subset: leave it out",
        Unsupported::Double => "there are no floating types in the subset: count in integers",
        Unsupported::Float => "there are no floating types in the subset: count in integers",
        Unsupported::Goto =>
            "`goto` isn't in the subset: use a loop, `break`, `continue` or `return`",
        Unsupported::Register => "`register` isn't in the subset: leave it out",
        Unsupported::Restrict => "`restrict` isn't in the subset: leave it out",
        Unsupported::Union => "`union` isn't in the subset: use a struct, or bytes",
        Unsupported::Volatile =>
            "`volatile` isn't in the subset: nothing but the program changes its objects",
        Unsupported::Bool => "`_Bool` isn't in the subset: use `int` or `unsigned char`",
        Unsupported::Complex => "there are no floating types in the subset: count in integers",
        Unsupported::Imaginary => "there are no floating types in the subset: count in integers",
        Unsupported::GnuAsm => "there is no assembly in the subset",
        Unsupported::Attribute => "attributes aren't in the subset: leave it out",
        Unsupported::Extension => "extensions aren't in the subset: leave it out",
        Unsupported::StringQuote => "strings aren't in the subset: use an array of `char`",
        Unsupported::Ellipsis => "functions have a fixed number of parameters in the subset",
        Unsupported::Hash => "directives aren't read: run the preprocessor first, as `cc -E` does",
    }
}

fn limit_sentence(limit: Limit) -> &'static str
    ensures { result.now ≡ limit_sentence limit }
{
    match limit {
        Limit::Functions => "a text has at most 1024 functions with bodies: part it into files",
        Limit::Statements =>
            "a function has at most 200 statements, declared locals included: part it into functions",
        Limit::Blocks =>
            "at most 32 statements stand one inside the other: make functions of the inner ones",
        Limit::Depth =>
            "the parts of an expression nest at most 32 deep: name some of them by locals",
        Limit::Nodes =>
            "an expression has at most 128 names, constants, operators and parentheses: name parts of it by locals",
    }
}

fn kind_sentence(kind: TypeKind) -> &'static str
    ensures { result.now ≡ kind_sentence kind }
{
    match kind {
        TypeKind::Unknown => "this name, tag or member isn't declared before",
        TypeKind::Twice => "this is declared, defined, initialised or labelled a second time",
        TypeKind::Mismatch =>
            "the types of the operands don't fit, or this isn't the constant or the statement that is needed here",
        TypeKind::NotLvalue =>
            "this has no place in memory: `=`, `++`, `--` and `&` need a variable, a member, an element or `*p`",
        TypeKind::Incomplete =>
            "an object is needed here, and this is `void` or a struct whose body hasn't stood yet",
        TypeKind::NoBody => "this function has no body in the text: give it one",
        TypeKind::Arity => "this call has more or fewer arguments than the function has parameters",
        TypeKind::FallThrough =>
            "these cases run into the next ones: end them by `break`, `continue` or `return`",
        TypeKind::OutOfSubset => "this is C, but not in the subset that is read",
        TypeKind::Large =>
            "an array has 1 to 4096 elements, and an array or a struct at most 65536 bytes",
    }
}
