//! That programs are made tidy, as a contract of a function that does nothing.

ghost use Rattle.std.specs.Prelude.{◌≡◌, List, Some, None};
ghost use Rattle.c_values.specs.Layout.{IsLayout};
ghost use Rattle.expression_lang.specs.Expression.{Exp};
ghost use Rattle.expression_lang.specs.Sort.{Scalar, Sort, Scope, sort_of};
ghost use Rattle.ac_expr.specs.Fact.{Fact};
ghost use Rattle.ac_expr.specs.Step.{IsStep};
ghost use Rattle.monad_lang.specs.Program.{Mon};
ghost use Rattle.monad_lang.specs.Sorted.{scalars_given};
ghost use Rattle.rule_eq.specs.Rule.{Point};
ghost use Rattle.polish.specs.Direct.{direct_step};
ghost use Rattle.expression_steps.specs.Shortened.{shortened};
ghost use Rattle.polish.specs.Polished.{polished, shortened_in};
ghost use Rattle.polish.specs.Translation.{translation, IsTidyOf};

/// The rules take every program that is well-sorted at a point to what it is made there, which is
/// tidy, gives the same scalars and keeps its forms: by the steps as they are made, and by the same
/// steps as a balanced tree.
pub fn programs_are_made_tidy()
    ensures polished { (at : Point) → IsLayout at.setting.scope.layout → (m : Mon) →
        (given : List Scalar) → scalars_given at.setting m ≡ Some given →
        IsTidyOf at given m (polished at m) }
    ensures translated { (at : Point) → IsLayout at.setting.scope.layout → (m : Mon) →
        (given : List Scalar) → scalars_given at.setting m ≡ Some given →
        IsTidyOf at given m (translation at m) }
{}

/// Steps in the expressions that stand in a program directly are made until there is none; and
/// where nothing shorter stands in the place of a well-sorted expression, no step makes another one
/// of it.
pub fn steps_are_made()
    ensures until_none_is_left { (at : Point) (m : Mon) →
        direct_step shortened at (shortened_in at m).program ≡ None }
    ensures all { (g : Scope) (fs : List Fact) (e : Exp) (o : Sort) → sort_of g e ≡ Some o →
        shortened g fs e ≡ None → (r : Exp) → IsStep g fs e r → r ≡ e }
{}
