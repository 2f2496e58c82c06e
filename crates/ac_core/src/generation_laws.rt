//! What the Simpl that is generated for a text has of its C, as the contract of a function that
//! does nothing.

ghost use Rattle.std.specs.Prelude.{◌≡◌, ℕ, ◌<◌, ◌^◌, List, length, Option, Some};
ghost use Rattle.correspondence.specs.Corresponds.{Corresponds};
ghost use Rattle.c_lex.specs.Lexeme.{Lexeme};
ghost use Rattle.c_lex.specs.Tokens.{Tokens};
ghost use Rattle.c_grammar.specs.Tree.{External};
ghost use Rattle.c_grammar.specs.Spells.{Spells};
ghost use Rattle.c_values.specs.Name.{Name};
ghost use Rattle.c_values.specs.Types.{Target};
ghost use Rattle.c_values.specs.Choice.{Choice};
ghost use Rattle.expression_lang.specs.Sort.{Level};
ghost use Rattle.expression_lang.specs.Signature.{Invocation};
ghost use Rattle.simpl_lang.specs.Exec.{simpl_runs};
ghost use Rattle.c_lang.specs.Typed.{TypedFn, TypedUnit, typed_fn};
ghost use Rattle.typing_rules.specs.Unit.{IsTyped};
ghost use Rattle.c_meaning.specs.CRun.{c_runs};
ghost use Rattle.generation.specs.Generate.{generated};
ghost use Rattle.c_meaning.specs.Fitting.{AreOfTypes};
ghost use Rattle.expression_lang.specs.States.{IsState};

/// The Simpl program that is generated for a text of C has exactly the ends of its C functions,
/// whatever the levels watch: at every bound and every limit of nested calls, from every
/// well-tagged memory, globals of their types and arguments of the parameters' types. No text in a
/// memory of 64 bits has more bytes.
pub fn generated_texts_have_the_same_ends()
    ensures { (text : List ℕ) (ts : List Lexeme) (xs : List External) (t : Target) (u : TypedUnit) →
        length text < 2 ^ 64 → Tokens text ts → Spells xs ts → IsTyped t xs u →
        (levels : Name → Level) (p : Choice) (n : ℕ) (depth : Option ℕ) (c : Invocation)
        (f : TypedFn) →
        typed_fn u.functions c.name ≡ Some f → AreOfTypes u.layout f.params c.arguments →
        IsState u.layout u.globals c.state →
        Corresponds (λ a b. b ≡ a) (λ k j. j ≡ k) (c_runs u levels p n depth c)
        (simpl_runs (generated u levels) p n depth c) }
{}
