//! Steps along paths.

ghost use Rattle.std.specs.Prelude.{◌≡◌, map, Some, None, IfOk, OnOk, IfErr};
ghost use Rattle.c_values.specs.Layout.{Shape};
ghost use Rattle.c_values.specs.Value.{number_in};
ghost use Rattle.c_values.specs.Path.{Index};
ghost use Rattle.c_values.specs.CodeValue.{value_of};
ghost use Rattle.c_memory.specs.CodeStep.{step_of};
ghost use Rattle.expression_lang.specs.Sort.{shape_along};
ghost use Rattle.expression_lang.specs.Evaluation.{steps};
ghost use Rattle.expression_lang.specs.Wide.{wide_in};
ghost use Rattle.expression_lang.specs.CodeExpression.{path_of};
ghost use Rattle.expression_lang.specs.CodeState.{env_of, AreScalars};
ghost use Rattle.program_runs.specs.CodeRun.{state_in, scope_of, IsStateOf, IsMet};

use crate::ends::Stop;
use crate::machine::{AState, Setting};
use c_memory::{Heap, Step};
use c_values::{Number, Value};
use expression_lang::{Env, Path};

impl Setting<'_> {
    /// The steps that a path takes. It goes along the path by a loop, since a text may have long
    /// paths.
    #[inline(never)]
    pub(crate) fn steps<H: Heap>(
        &self,
        path: &Path,
        env: &Env,
        state: &AState<H>,
    ) -> Result<Vec<Step>, Stop>
        requires env { AreScalars env.now.items }
        requires state { IsStateOf H.content self.now.unit.now state.now }
        requires leads { (r : Shape) × (q : Shape) ×
            (shape_along (scope_of self.now.unit.now env.now.items) (path_of path.now) r ≡ Some q) }
        ensures steps { IfOk result (λ ps. map step_of ps.items
            ≡ steps self.now.unit.now.layout (env_of env.now.items)
            (state_in H.content self.now.unit.now state.now) (path_of path.now)) }
        ensures narrow { OnOk result (wide_in self.now.unit.now.layout (env_of env.now.items)
            (state_in H.content self.now.unit.now state.now) (path_of path.now) ≡ None) }
        ensures met { IfErr result (IsMet (wide_in self.now.unit.now.layout (env_of env.now.items)
            (state_in H.content self.now.unit.now state.now) (path_of path.now))) }
    {
        let mut steps = Vec::new(self.alloc);
        let mut rest = path;
        'along: loop {
            match rest {
                Path::Here => return Ok(steps),
                Path::Field(k, next) => {
                    steps.push(Step::Field(*k))?;
                    rest = &**next;
                }
                Path::Index(e, next) => {
                    let index = self.value(e, env, state)?;
                    steps.push(element(&index))?;
                    rest = &**next;
                }
            }
        }
    }
}

// The step to the element of an index.
fn element(index: &Value) -> Step
    ensures { step_of result ≡ Index (number_in (value_of index.now)) }
{
    match index {
        Value::Number(number) => Step::Index(*number),
        _ => Step::Index(Number::new(false, 0)),
    }
}
