//! Whether a script stays so far within the limits that no places need to be found.

ghost use Rattle.std.specs.Prelude.{◌≡◌, [], true, if◌then◌else◌, IfOk, None, Some, reverse};
ghost use Rattle.c_limits.specs.CodeBounds as machine;

use super::Limit;
use super::role::{Role, role_of};
use c_grammar::Step;
use std::alloc::{AllocError, Global};

/// How much can stand in one function, and in one expression, by the productions that have ended.
#[derive(Clone, Copy)]
pub(super) struct Bounds {
    /// The functions.
    pub(super) functions: usize,
    /// The statements and declarators of locals since the last function.
    pub(super) statements: usize,
    /// The nodes since the last part that stands in no expression.
    pub(super) nodes: usize,
    /// Those with others below them: nodes nest no deeper than these, and one more.
    pub(super) operators: usize,
}

impl Bounds {
    /// Before a script.
    fn none() -> Bounds
        ensures { result ≡ machine.none }
    {
        Bounds {
            functions: 0,
            statements: 0,
            nodes: 0,
            operators: 0,
        }
    }

    /// Behind a part that stands in no expression.
    fn apart(self) -> Bounds
        ensures { result ≡ machine.apart self }
    {
        Bounds {
            nodes: 0,
            operators: 0,
            ..self
        }
    }

    /// Behind the end of a production of this role.
    fn behind(self, role: Role) -> Bounds
        requires { machine.is_within self ≡ true }
        ensures { result ≡ machine.behind role self }
    {
        match role {
            Role::Nothing | Role::Specifier | Role::TypePart => self,
            Role::Leaf => Bounds {
                nodes: self.nodes + 1,
                ..self
            },
            Role::Node => Bounds {
                nodes: self.nodes + 1,
                operators: self.operators + 1,
                ..self
            },
            Role::Part | Role::Simple | Role::Outermost | Role::Sequence(_) => self.apart(),
            Role::Local | Role::Statement | Role::Compound(_) => Bounds {
                statements: self.statements + 1,
                ..self.apart()
            },
            Role::Function => Bounds {
                functions: self.functions + 1,
                ..Bounds::none()
            },
        }
    }

    /// Whether no limit can be passed yet.
    fn is_within(self) -> bool
        ensures { result ≡ machine.is_within self }
    {
        self.functions <= Limit::Functions.most()
            && self.statements <= Limit::Statements.most()
            && self.nodes <= Limit::Nodes.most()
            && self.operators < Limit::Depth.most()
    }
}

/// Takes so many depths from the stack, and tells the greatest.
fn deepest(depths: &mut Vec<usize>, count: usize) -> usize
    ensures { (result, reverse depths.new.items)
        ≡ machine.deepest count (reverse depths.old.items) 0 }
{
    let mut depth = 0;
    for _ in 0..count {
        match depths.pop() {
            Some(inner) => depth = inner.max(depth),
            None => break,
        }
    }
    depth
}

/// Keeps how deep statements nest behind the end of a production of this role, unless too deep.
fn nest(depths: &mut Vec<usize>, role: Role) -> Result<bool, AllocError>
    ensures { IfOk result (λ within. (if within then Some (reverse depths.new.items) else None)
        ≡ machine.nested role (reverse depths.old.items)) }
{
    match role {
        Role::Statement => depths.push(1)?,
        Role::Compound(count) => {
            let depth = deepest(depths, count);
            if depth >= Limit::Blocks.most() {
                return Ok(false);
            }
            depths.push(depth + 1)?;
        }
        Role::Sequence(count) => {
            let depth = deepest(depths, count);
            depths.push(depth)?;
        }
        Role::Function => {
            depths.pop();
        }
        Role::Nothing
        | Role::Leaf
        | Role::Node
        | Role::Specifier
        | Role::TypePart
        | Role::Part
        | Role::Simple
        | Role::Outermost
        | Role::Local => (),
    }
    Ok(true)
}

/// Whether the bounds stay within the limits along a script. Then its tree passes none.
#[tactic(auto, unfolding(crate::specs::CodeBounds::stay_within))]
pub(super) fn stays_within(alloc: Global, steps: &[Step]) -> Result<bool, AllocError>
    ensures { IfOk result (λ within. within ≡ machine.stay_within machine.none [] steps.now) }
{
    let mut bounds = Bounds::none();
    let mut depths = Vec::new(alloc);
    let mut rest = steps;
    'along: while let Some((step, others)) = rest.split_first() {
        if let Step::Reduce(production) = step {
            let role = role_of(*production);
            bounds = bounds.behind(role);
            if !bounds.is_within() || !nest(&mut depths, role)? {
                return Ok(false);
            }
        }
        rest = others;
    }
    Ok(true)
}
