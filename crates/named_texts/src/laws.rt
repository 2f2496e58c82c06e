//! That typed texts have names, as the contract of a function that does nothing.

ghost use Rattle.std.specs.Prelude.{ℕ, ◌<◌, ◌^◌, List, length};
ghost use Rattle.c_lex.specs.Lexeme.{Lexeme};
ghost use Rattle.c_lex.specs.Tokens.{Tokens};
ghost use Rattle.c_grammar.specs.Spells.{Spells};
ghost use Rattle.c_grammar.specs.Tree.{External};
ghost use Rattle.c_values.specs.Types.{Target};
ghost use Rattle.c_lang.specs.Typed.{TypedUnit};
ghost use Rattle.typing_rules.specs.Unit.{IsTyped};
ghost use Rattle.typing_laws.specs.Written.{AreWritten};
ghost use Rattle.unit_names.specs.HasNames.{HasNames};

/// The unit of a typed text speaks of nothing that has no text: its globals, its functions and
/// their variables have names as texts have them, and each type in an expression is of structs
/// with such names and arrays of lengths below 2^32. So it is for the tree of a text, and for
/// every tree that has what trees of texts have.
pub fn typed_units_have_names()
    ensures trees { (t : Target) (xs : List External) (u : TypedUnit) → AreWritten xs →
        IsTyped t xs u → HasNames u }
    ensures texts { (text : List ℕ) (ts : List Lexeme) (t : Target) (xs : List External)
        (u : TypedUnit) → length text < 2 ^ 64 →
        Tokens text ts → Spells xs ts → IsTyped t xs u → HasNames u }
{}
