//! Laws of the rules, as contracts of functions that do nothing.

ghost use Rattle.std.specs.Prelude.{◌≡◌, Bool, true, List, [], map, Option, Some};
ghost use Rattle.c_values.specs.Name.{Name};
ghost use Rattle.c_values.specs.Layout.{IsLayout};
ghost use Rattle.expression_lang.specs.Expression.{Exp};
ghost use Rattle.expression_lang.specs.Signature.{Binder};
ghost use Rattle.expression_lang.specs.Sort.{Scalar, Kind, Level, word_sort_of};
ghost use Rattle.monad_lang.specs.Program.{Mon, FinalUnit};
ghost use Rattle.monad_lang.specs.Sorted.{scalars_given, IsWellFormed};
ghost use Rattle.rule_trees.specs.RuleTree.{Tree, Accepts};
ghost use Rattle.rule_word.specs.Rule.{Rule, Context, Point, View, expression, program};
ghost use Rattle.rule_word.specs.Scopes.{words};
ghost use Rattle.rule_word.specs.Table.{table, Takes};
ghost use Rattle.rule_word.specs.Kept.{context_of};
ghost use Rattle.rule_word.specs.Exact.{IsSeenAs, StandsFor};
ghost use Rattle.rule_word.specs.ProgramsAbstracted.{program_abstracted, binds_words};
ghost use Rattle.rule_word.specs.Ready.{is_numbers_level, program_ready, is_form_of, is_heap_form_of};
ghost use Rattle.rule_word.specs.UnitAbstracted.{FunctionKinds, right_context, unit_abstracted, AreFor};
ghost use Rattle.rule_word.specs.Units.{IsUnitAbstractedTo, UnitsKeepWords};

/// What the rules take an expression to is its value, seen so, wherever the facts of the point
/// hold.
pub fn words_are_seen()
    ensures { (ctx : Context) (at : Point) (t : Tree Rule) (left : Exp) (view : View)
        (right : Exp) →
        IsLayout ctx.layout → Accepts (table ctx) t (expression at left view right) →
        IsSeenAs ctx at left view right }
{}

/// What the rules take a program to stands for it: over functions that do so it fails alike, gives
/// what stands for the words that the left side gives, with equal states, and stops alike; each
/// call is in range; and it is steady where the left side is.
pub fn taken_is_exact()
    ensures { (unit : FinalUnit) (at : Point) (t : Tree Rule) (left right : Mon)
        (kinds : List Kind) →
        Accepts (table (context_of unit)) t (program at left right kinds) →
        StandsFor unit at left right kinds }
{}

/// A well-sorted program that the rules take to one at kinds gives words of these kinds: the parts
/// say their sorts.
pub fn kinds_fit()
    ensures { (ctx : Context) (at : Point) (t : Tree Rule) (left right : Mon) (kinds : List Kind)
        (given : List Scalar) →
        Accepts (table ctx) t (program at left right kinds) →
        scalars_given (words ctx at.names) left ≡ Some given →
        given ≡ map word_sort_of kinds }
{}

/// The functions of a well-formed unit of programs on words and of a unit of programs on what
/// stands for them do the same, where the rules take each body of the one to that of the other.
pub fn abstracted_units_keep_words()
    ensures { (u v : FinalUnit) → IsWellFormed u → IsUnitAbstractedTo u v → UnitsKeepWords u v }
{}

/// What the rules take a well-formed unit to is well-formed.
pub fn abstracted_units_are_formed()
    ensures { (u v : FinalUnit) → IsWellFormed u → IsUnitAbstractedTo u v → IsWellFormed v }
{}

/// A well-formed unit whose bound names are words or truth values is abstracted at kinds of its
/// words: the rules take each of its bodies to that of the unit that it is abstracted to, which is
/// well-formed and does the same.
pub fn units_are_abstracted()
    ensures taken { (same : Exp → Exp → Bool) (u : FinalUnit) (kinds : List FunctionKinds) →
        ((a b : Exp) → same a b ≡ true → a ≡ b) →
        IsWellFormed u → AreFor (right_context u kinds) u.functions kinds →
        IsUnitAbstractedTo u (unit_abstracted same u kinds) }
    ensures formed { (same : Exp → Exp → Bool) (u : FinalUnit) (kinds : List FunctionKinds) →
        ((a b : Exp) → same a b ≡ true → a ≡ b) →
        IsWellFormed u → AreFor (right_context u kinds) u.functions kinds →
        IsWellFormed (unit_abstracted same u kinds) }
    ensures kept { (same : Exp → Exp → Bool) (u : FinalUnit) (kinds : List FunctionKinds) →
        ((a b : Exp) → same a b ≡ true → a ≡ b) →
        IsWellFormed u → AreFor (right_context u kinds) u.functions kinds →
        UnitsKeepWords u (unit_abstracted same u kinds) }
{}

/// Words can be abstracted in every well-sorted program whose bound names are words or truth
/// values: the rules take it to what it is abstracted to, whatever is known. And where it is ready
/// for its level, that is of the level's form. Expressions are compared by any test that holds of
/// none but equal ones.
pub fn words_are_abstracted()
    ensures taken { (same : Exp → Exp → Bool) (numbers : Bool) (ctx : Context) (table : Name →
        Option Kind) (names : List Binder) (m : Mon) (kinds : List Kind) →
        ((a b : Exp) → same a b ≡ true → a ≡ b) →
        scalars_given (words ctx names) m ≡ Some (map word_sort_of kinds) →
        binds_words (words ctx names) m ≡ true →
        Takes ctx names (program_abstracted same numbers ctx table [] names m kinds).tree m
        (program_abstracted same numbers ctx table [] names m kinds).right kinds }
    ensures formed { (same : Exp → Exp → Bool) (level : Level) (ctx : Context) (table : Name →
        Option Kind) (names : List Binder) (m : Mon) (kinds : List Kind) →
        program_ready same (is_numbers_level level) ctx table [] names m kinds ≡ true →
        is_heap_form_of level m ≡ true →
        is_form_of level (program_abstracted same
        (is_numbers_level level) ctx table [] names m kinds).right
        ≡ true }
{}
