//! What a certificate has for each function.

ghost use Rattle.std.specs.Prelude.{◌≡◌};
ghost use Rattle.monad_lang.specs.CodeProgram.{mon_of};
ghost use Rattle.acceptance.specs.Certificate.{before_words};
ghost use Rattle.acceptance.specs.CodeCertificate.{steps_of};

use expression_lang::Level;
use monad_lang::Mon;
use rule_trees::Tree;
use simpl_lang::Simpl;

/// A step of a function: the program after it, and the tree of rules that takes the one before to
/// it.
pub struct Step<P: Drop, R: Drop> {
    pub program: Box<P>,
    pub tree: Tree<R>,
}

impl<P: Drop, R: Drop> Drop for Step<P, R> {
    fn drop(self) {
        let Step {
            program: _program,
            tree: _tree,
        } = self;
    }
}

/// The steps of a function, which is at a level.
pub struct Steps {
    pub name: String,
    pub level: Level,
    pub exception: Step<Simpl, rule_exn::Rule>,
    pub local: Step<Mon, rule_local::Rule>,
    /// There where the function is on typed heaps, and absent where it isn't.
    pub heap: Option<Step<Mon, rule_heap::Rule>>,
    pub word: Step<Mon, rule_word::Rule>,
    pub equal: Step<Mon, rule_eq::Rule>,
}

impl Drop for Steps {
    fn drop(self) {
        let Steps {
            name: _name,
            level: _,
            exception: _exception,
            local: _local,
            heap: _heap,
            word: _word,
            equal: _equal,
        } = self;
    }
}

impl Steps {
    /// The program before words become numbers.
    pub fn before_words(&self) -> &Mon
        ensures { mon_of result.now ≡ before_words (steps_of self.now) }
    {
        match &self.heap {
            Some(step) => &step.program,
            None => &self.local.program,
        }
    }
}
