//! Texts of programs, computed from the definition.

ghost use Rattle.std.specs.Prelude.{◌≡◌, [], ◌∷◌, ◌++◌, codes};
ghost use Rattle.abs_print.specs.Programs.{lines, lines_text, unit_text};
ghost use Rattle.text_tests.specs.Worked.{f, g, unit_of, nested, f_text, g_text, nested_text};

/// A guarded sum is three lines, and an empty one stands before the next function. No functions are
/// nothing.
pub fn sums()
    ensures one { unit_text (unit_of (f ∷ [])) ≡ f_text }
    ensures two { unit_text (unit_of (f ∷ g ∷ [])) ≡ f_text ++ (codes "\n" ++ g_text) }
    ensures none { unit_text (unit_of []) ≡ [] }
{}

/// Names stand before the first line of a sequence, a choice or a loop that is a step.
pub fn steps_in_steps()
    ensures { lines_text (lines nested) ≡ nested_text }
{}
