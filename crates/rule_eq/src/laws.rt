//! Laws of the rules, as contracts of functions that do nothing.

ghost use Rattle.std.specs.Prelude.{◌≡◌, ◌⊎◌, ◌↔◌, ℕ, true, false, List, Option, Some};
ghost use Rattle.correspondence.specs.Corresponds.{Corresponds, Paired};
ghost use Rattle.correspondence.specs.Related.{Same, BothFail};
ghost use Rattle.c_values.specs.Name.{Name, with_name};
ghost use Rattle.c_values.specs.Layout.{Layout};
ghost use Rattle.c_values.specs.Choice.{Choice};
ghost use Rattle.expression_lang.specs.Expression.{Exp};
ghost use Rattle.expression_lang.specs.Evaluation.{Env, State, value};
ghost use Rattle.expression_lang.specs.Mentions.{names, reads};
ghost use Rattle.expression_lang.specs.Sort.{Scalar, sort_of_kind};
ghost use Rattle.expression_lang.specs.States.{IsEnvironment, IsState};
ghost use Rattle.ac_expr.specs.Substituted.{substituted};
ghost use Rattle.ac_expr.specs.Fact.{Fact};
ghost use Rattle.monad_lang.specs.Program.{Mon, FinalUnit};
ghost use Rattle.monad_lang.specs.Form.{is_tidy};
ghost use Rattle.monad_lang.specs.Names.{is_free, is_captured};
ghost use Rattle.monad_lang.specs.Run.{runs, functions_below};
ghost use Rattle.monad_lang.specs.Sorted.{scalars_given, IsWellFormed};
ghost use Rattle.program_facts.specs.Substituted.{program_substituted};
ghost use Rattle.program_facts.specs.Lasting.{setting_in};
ghost use Rattle.rule_trees.specs.RuleTree.{Tree};
ghost use Rattle.rule_eq.specs.Rule.{Rule, Point};
ghost use Rattle.rule_eq.specs.Table.{point, row, Takes};
ghost use Rattle.rule_eq.specs.Kept.{EqualKept};
ghost use Rattle.rule_eq.specs.Exact.{AreAlike, DoesSame};
ghost use Rattle.rule_eq.specs.Tidy.{Simplifies, KeepsForms, IsSimplified, AtSomePlace};
ghost use Rattle.rule_eq.specs.Units.{IsUnitTakenTo, UnitsKeepEqual};

/// An expression with another one in place of a name has the value that it has where the name holds
/// the other's value. A well-sorted program with an expression in place of a name does what it does
/// where the name holds the expression's value, if the expression doesn't look at the state or the
/// name isn't free, and no binder above a free place of the name binds a name of the expression.
pub fn substitution_is_exact()
    ensures values { (l : Layout) (env : Env) (s : State) (x : Name) (e a : Exp) →
        value l env s (substituted x e a) ≡ value l (with_name x (value l env s e) env) s a }
    ensures programs { (u : FinalUnit) → IsWellFormed u → (p : Choice) (n : ℕ)
        (x : Name) (e : Exp) (m : Mon) → (reads e ≡ false) ⊎ (is_free x m ≡ false) →
        ((y : Name) → names y e ≡ true → is_captured y x m ≡ false) →
        (scoped : Name → Option Scalar) (given : List Scalar) →
        scalars_given (setting_in sort_of_kind u scoped) m ≡ Some given →
        (depth : Option ℕ) (env : Env) (s : State) → IsState u.layout u.globals s →
        IsEnvironment (setting_in sort_of_kind u scoped).scope (with_name x
        (value u.layout env s e) env) →
        Corresponds Same BothFail
        (runs u.layout p m (with_name x (value u.layout env s e) env) depth
        (functions_below u p n) s)
        (runs u.layout p (program_substituted x e m) env depth (functions_below u p n) s) }
{}

/// What the rules take a well-sorted program to does the same, on either heap, where the facts
/// hold: it has the same answers, fails alike and stops alike, over functions of two well-formed
/// units that do so; and where the left side is in range or steady, so is the right side.
pub fn taken_is_exact()
    ensures { (u v : FinalUnit) → IsWellFormed u → IsWellFormed v → AreAlike u v →
        (p : Choice) (n : ℕ) →
        Paired (EqualKept u) (functions_below u p n) (functions_below v p n) →
        (fs : List Fact) (scoped : Name → Option Scalar) (t : Tree Rule) (left right : Mon)
        (given given' : List Scalar) →
        Takes (point fs (setting_in sort_of_kind u scoped)) t left right →
        scalars_given (setting_in sort_of_kind u scoped) left ≡ Some given →
        scalars_given (setting_in sort_of_kind u scoped) right ≡ Some given' →
        (depth : Option ℕ) (env : Env) → DoesSame u v p n fs scoped left right depth env }
{}

/// The functions of two well-formed units do the same, where the rules take each body of the one to
/// that of the other; and a body is in range, and steady, where the one that it was taken from is.
pub fn taken_units_keep_equal()
    ensures { (u v : FinalUnit) → IsWellFormed u → IsWellFormed v → IsUnitTakenTo u v →
        UnitsKeepEqual u v }
{}

/// What a rule makes simpler gives the scalars that it gave, and keeps its forms.
pub fn simplifying_keeps_sorts()
    ensures sorts { (at : Point) (rule : Rule) (m m' : Mon) (given : List Scalar) →
        Simplifies rule →
        (row at rule m m').holds → scalars_given at.setting m ≡ Some given →
        scalars_given at.setting m' ≡ Some given }
    ensures forms { (at : Point) (rule : Rule) (m m' : Mon) → Simplifies rule →
        (row at rule m m').holds → KeepsForms m m' }
{}

/// A program is tidy exactly where none of its places is the left side of a rule that makes
/// programs simpler: a value that is given back or given to nobody, a Bind in first place, an If on
/// a constant, a guard that is `#t`, a variable or a constant that can be put in. At whatever
/// point: none of these rules looks at what is known there.
pub fn tidy_is_exact()
    ensures { (at : Point) (m : Mon) → (is_tidy m ≡ true) ↔ (AtSomePlace (IsSimplified at) m → ⊥) }
{}
