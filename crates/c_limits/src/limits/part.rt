//! The parts of a text on the stack: where each begins, and its measure.

ghost use Rattle.std.specs.Prelude.{◌≡◌, IfOk, map, option_map, reverse};
ghost use Rattle.c_limits.specs.CodeMeasure as machine;

use super::measure::{Measure, beside, counted, outermost};
use super::role::{Role, arity, role_of};
use c_grammar::Production;
use std::alloc::{AllocError, Global};

/// A part of a text.
#[derive(Drop)]
pub(super) struct Part {
    /// The offset of its first token, where that can be the first one of a node.
    pub(super) first: Option<usize>,
    /// What counts in it, if anything.
    pub(super) measure: Option<Box<Measure>>,
}

impl Part {
    /// The part without tokens.
    pub(super) fn empty() -> Part
        ensures { machine.part_of result ≡ machine.empty }
    {
        Part {
            first: None,
            measure: None,
        }
    }

    /// A token at an offset.
    pub(super) fn token(at: usize) -> Part
        ensures { machine.part_of result ≡ machine.token at }
    {
        Part {
            first: Some(at),
            measure: None,
        }
    }

    /// Two parts side by side.
    pub(super) fn beside(self, right: Part) -> Result<Part, AllocError>
        ensures { IfOk result
            (λ part. machine.part_of part ≡ machine.joined machine.cut (machine.part_of self)
            (machine.part_of right)) }
    {
        Ok(Part {
            first: self.first.or(right.first),
            measure: beside(self.measure, right.measure)?,
        })
    }

    /// What a production makes of its parts, if anything.
    pub(super) fn made(self, alloc: Global, role: Role) -> Result<Option<Part>, AllocError>
        ensures { machine.cut_part (machine.part_of self) ≡ machine.part_of self →
            IfOk result
            (λ part. option_map machine.part_of part
            ≡ machine.made machine.cut role (machine.part_of self)) }
    {
        let Part { first, measure } = self;
        let at = first.unwrap_or(0);
        match role {
            Role::Nothing => Ok(None),
            Role::Leaf | Role::Node => {
                let mut measure = counted(alloc, measure)?;
                measure.node(at)?;
                Ok(Some(Part {
                    first,
                    measure: Some(measure),
                }))
            }
            Role::Specifier => Ok(Some(Part { first, measure })),
            Role::TypePart | Role::Part | Role::Sequence(_) => Ok(Some(Part {
                first: None,
                measure,
            })),
            Role::Simple => Ok(Some(Part {
                first,
                measure: outermost(measure),
            })),
            Role::Outermost => Ok(Some(Part {
                first: None,
                measure: outermost(measure),
            })),
            Role::Statement | Role::Compound(_) => {
                let mut measure = counted(alloc, measure)?;
                measure.statement(at)?;
                Ok(Some(Part {
                    first: None,
                    measure: Some(measure),
                }))
            }
            Role::Local => {
                let mut measure = counted(alloc, measure)?;
                measure.local(at)?;
                Ok(Some(Part {
                    first: None,
                    measure: Some(measure),
                }))
            }
            Role::Function => {
                let mut measure = counted(alloc, measure)?;
                measure.function(at)?;
                Ok(Some(Part {
                    first: None,
                    measure: Some(measure),
                }))
            }
        }
    }
}

/// Takes some parts from the stack, and puts them side by side.
fn gather(parts: &mut Vec<Part>, count: usize) -> Result<Part, AllocError>
    ensures { IfOk result
        (λ part. (machine.part_of part, reverse (map machine.part_of parts.new.items))
        ≡ machine.gathered machine.cut count
        (reverse (map machine.part_of parts.old.items)) machine.empty) }
{
    let mut sum = Part::empty();
    for _ in 0..count {
        match parts.pop() {
            Some(part) => sum = part.beside(sum)?,
            None => break,
        }
    }
    Ok(sum)
}

/// Puts what a production makes of its parts in their place.
pub(super) fn reduce(
    alloc: Global,
    parts: &mut Vec<Part>,
    production: Production,
) -> Result<(), AllocError>
    ensures { IfOk result
        (λ _. reverse (map machine.part_of parts.new.items) ≡ machine.reduced machine.cut production
        (reverse (map machine.part_of parts.old.items))) }
{
    let sum = gather(parts, arity(production))?;
    if let Some(part) = sum.made(alloc, role_of(production))? {
        parts.push(part)?;
    }
    Ok(())
}
