//! What is to be done with a typed text.

ghost use Rattle.std.specs.Prelude.{◌≡◌, ℕ, List, IfOk};
ghost use Rattle.c_values.specs.Types as types;
ghost use Rattle.c_values.specs.CodeTypes.{target_of};
ghost use Rattle.c_lang.specs.Typed as typed;
ghost use Rattle.c_lang.specs.CodeTyped.{unit_of};
ghost use Rattle.text_answers.specs.TextAnswer.{IsRead};
ghost use Rattle.answers.specs.declared.status.Status.{Status};
ghost use Rattle.answers.specs.declared.status.Status.TheVariants.{Source};

use answers::Answer;
use c_lang::tree::TypedUnit;
use c_values::Target;
use std::alloc::{AllocError, Global};

/// What is to be done with a C text once it is typed.
pub trait Task {
    // the target on which it is typed
    ghost target_for: { Self → types.Target };

    // what the answers are to a typed text
    ghost answers: { Self → typed.TypedUnit → Status → List ℕ → Type 0 };

    /// The target on which a text is typed.
    fn target(&self) -> Target
        ensures { target_of result ≡ target_for self.now };

    /// The answer to a typed text. That it isn't C is none.
    fn answer(&self, alloc: Global, unit: TypedUnit) -> Result<Answer, AllocError>
        requires { IsRead (target_for self.now) (unit_of unit) }
        ensures answer { IfOk result (λ a.
            answers self.now (unit_of unit) a.status a.lines.items) }
        ensures typed { IfOk result (λ a. a.status ≡ Source → ⊥) };
}
