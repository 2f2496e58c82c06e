//! Laws of typed texts, as contracts of functions that do nothing.

ghost use Rattle.std.specs.Prelude.{ℕ, ◌<◌, ◌^◌, List, length};
ghost use Rattle.c_lex.specs.Lexeme.{Lexeme};
ghost use Rattle.c_lex.specs.Tokens.{Tokens};
ghost use Rattle.c_grammar.specs.Spells.{Spells};
ghost use Rattle.c_values.specs.Types.{Target};
ghost use Rattle.c_grammar.specs.Tree.{External};
ghost use Rattle.c_lang.specs.Typed.{TypedUnit};
ghost use Rattle.c_lang.specs.WellTyped.{IsWellTyped};
ghost use Rattle.typing_rules.specs.Unit.{IsTyped};
ghost use Rattle.typing_laws.specs.Written.{AreWritten};

/// The unit of a typed text is well-typed: its layout can be, its globals are objects that begin with values of their types,
/// each function's variables are scalars under different names, no two of its calls, switches or do-whiles have one number,
/// and each node of a body has parts of the types that it asks for, with names of its scope. So it is for the tree of a text,
/// and for every tree that has what trees of texts have.
pub fn typed_units_are_well_typed()
    ensures trees { (t : Target) (xs : List External) (u : TypedUnit) → AreWritten xs →
        IsTyped t xs u → IsWellTyped u }
    ensures texts { (text : List ℕ) (ts : List Lexeme) (t : Target) (xs : List External)
        (u : TypedUnit) → length text < 2 ^ 64 →
        Tokens text ts → Spells xs ts → IsTyped t xs u → IsWellTyped u }
{}

/// The tree of a text has names as C spells them and characters that are bytes, and what has a number in it is no more than
/// the text has bytes.
pub fn texts_are_written()
    ensures { (text : List ℕ) (ts : List Lexeme) (xs : List External) → length text < 2 ^ 64 →
        Tokens text ts → Spells xs ts → AreWritten xs }
{}
