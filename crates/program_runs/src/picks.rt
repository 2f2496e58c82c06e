//! What is picked.

ghost use Rattle.std.specs.Prelude.{◌≡◌, true, IfOk, IfErr};
ghost use Rattle.c_values.specs.CodeValue.{value_of};
ghost use Rattle.expression_lang.specs.CodeExpression.{kind_of};
ghost use Rattle.expression_lang.specs.CodeState.{env_of};
ghost use Rattle.expression_lang.specs.Evaluation.{State};
ghost use Rattle.expression_lang.specs.Sort.{is_kind};
ghost use Rattle.monad_lang.specs.Program.{Pick};
ghost use Rattle.monad_lang.specs.CodeProgram.{final_unit_of};
ghost use Rattle.program_runs.specs.Machine.{Leads, CanRun, runs_at};
ghost use Rattle.program_runs.specs.CodeRun.{bound_of, now_of, picked_value, HasStopped};

use crate::ends::Stop;
use crate::machine::{Bound, Next, Setting};
use c_values::views::word;
use c_values::{Number, Value, int, nat};
use expression_lang::{Env, Kind};

impl<'a> Setting<'a> {
    /// A value of the kind is given.
    #[inline(never)]
    pub(crate) fn pick(&self, kind: Kind, bound: Bound, env: &Env) -> Result<Next<'a>, Stop>
        requires sorted { CanRun (final_unit_of self.now.unit.now) env.now.items
            (Pick (kind_of kind)) }
        ensures leads { IfOk result (λ next. (s : State) →
            Leads (final_unit_of self.now.unit.now) self.now.fill env.now.items
            (Pick (kind_of kind)) (bound_of bound) s (now_of env.now.items next) s) }
        ensures stops { IfErr result (λ stop. (s : State) →
            HasStopped (runs_at (final_unit_of self.now.unit.now) self.now.fill
            (env_of env.now.items) (Pick (kind_of kind)) (bound_of bound) s) stop) }
    {
        let mut values = Vec::new(self.alloc);
        values.push(picked(kind, self.fill))?;
        Ok(Next::Gave(values))
    }
}

// What a fill number picks at a kind.
fn picked(kind: Kind, fill: u64) -> Value
    requires { is_kind (kind_of kind) ≡ true }
    ensures { value_of result ≡ picked_value fill (kind_of kind) }
{
    match kind {
        Kind::Word(width) => Value::Word(word(width, Number::new(false, fill as u128))),
        Kind::Nat(width) => Value::Number(nat(word(width, Number::new(false, fill as u128)))),
        Kind::Int(width) => Value::Number(int(word(width, Number::new(false, fill as u128)))),
        Kind::Bool => Value::Truth(false),
    }
}
