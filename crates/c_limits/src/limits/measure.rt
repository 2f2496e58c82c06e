//! What counts in a part of a text.

ghost use Rattle.std.specs.Prelude.{◌≡◌, IfOk, IsTrue};
ghost use Rattle.c_limits.specs.Limits as limits;
ghost use Rattle.c_limits.specs.CodeMeasure as machine;

use super::Limit;
use super::offsets::{before, joined, leftmost, shorten};
use std::alloc::{AllocError, Global};

/// A limit that is passed, and the offset at which it is.
pub(super) type Fault = (Limit, usize);

/// What counts in a part of a text, by the offsets of first tokens in preorder, up to the first one past the limit.
#[derive(Drop)]
pub(super) struct Measure {
    /// The functions.
    pub(super) functions: Vec<usize>,
    /// The statements of no function, and the declarators of locals.
    pub(super) statements: Vec<usize>,
    /// The first of these statements on each level of nesting.
    pub(super) blocks: Vec<usize>,
    /// The nodes of the outermost expressions.
    pub(super) nodes: Vec<usize>,
    /// The first of these nodes on each level.
    pub(super) depth: Vec<usize>,
    /// The first limit that the part passes, if its outermost expressions stand in no other.
    pub(super) fault: Option<Fault>,
}

/// The place of a limit among those that are passed at one offset.
fn rank(limit: Limit) -> u8
    ensures { result ≡ limits.rank limit }
{
    match limit {
        Limit::Functions => 0,
        Limit::Statements => 1,
        Limit::Blocks => 2,
        Limit::Depth => 3,
        Limit::Nodes => 4,
    }
}

/// Whether a fault comes no later than another.
fn precedes(left: Fault, right: Fault) -> bool
    ensures { result ≡ limits.precedes left right }
{
    left.1 < right.1 || left.1 == right.1 && rank(left.0) <= rank(right.0)
}

/// The one of two faults that comes first, if there is one.
pub(super) fn earlier(left: Option<Fault>, right: Option<Fault>) -> Option<Fault>
    ensures { result ≡ limits.earlier left right }
{
    match (left, right) {
        (None, _) => right,
        (_, None) => left,
        (Some(one), Some(other)) => Some(if precedes(one, other) { one } else { other }),
    }
}

/// The fault of the nodes that count for a limit.
pub(super) fn past(limit: Limit, offsets: &[usize]) -> Option<Fault>
    ensures { result ≡ limits.past limit offsets.now }
{
    let at = offsets.get(limit.most())?;
    Some((limit, *at))
}

impl Measure {
    /// Where nothing counts.
    pub(super) fn nothing(alloc: Global) -> Measure
        ensures { machine.measure_of result ≡ limits.nothing }
    {
        Measure {
            functions: Vec::new(alloc),
            statements: Vec::new(alloc),
            blocks: Vec::new(alloc),
            nodes: Vec::new(alloc),
            depth: Vec::new(alloc),
            fault: None,
        }
    }

    /// Whether nothing counts.
    fn is_nothing(&self) -> bool
        ensures { IsTrue result → machine.measure_of self.now ≡ limits.nothing }
    {
        self.functions.is_empty()
            && self.statements.is_empty()
            && self.blocks.is_empty()
            && self.nodes.is_empty()
            && self.depth.is_empty()
            && self.fault.is_none()
    }

    /// Keeps the offsets up to the first one past each limit.
    fn cut(&mut self)
        ensures { machine.measure_of self.new ≡ machine.cut (machine.measure_of self.old) }
    {
        shorten(&mut self.functions, Limit::Functions);
        shorten(&mut self.statements, Limit::Statements);
        shorten(&mut self.blocks, Limit::Blocks);
        shorten(&mut self.nodes, Limit::Nodes);
        shorten(&mut self.depth, Limit::Depth);
    }

    /// Another part at the right side of this one.
    fn join(&mut self, right: Measure) -> Result<(), AllocError>
        ensures { IfOk result
            (λ _. machine.measure_of self.new
            ≡ machine.cut (limits.beside (machine.measure_of self.old)
            (machine.measure_of right))) }
    {
        let Measure {
            functions,
            statements,
            blocks,
            nodes,
            depth,
            fault,
        } = right;
        joined(&mut self.functions, functions, Limit::Functions)?;
        joined(&mut self.statements, statements, Limit::Statements)?;
        leftmost(&mut self.blocks, blocks, Limit::Blocks)?;
        joined(&mut self.nodes, nodes, Limit::Nodes)?;
        leftmost(&mut self.depth, depth, Limit::Depth)?;
        self.fault = earlier(self.fault, fault);
        Ok(())
    }

    /// A node of an expression above these parts.
    pub(super) fn node(&mut self, at: usize) -> Result<(), AllocError>
        ensures { machine.cut (machine.measure_of self.old) ≡ machine.measure_of self.old →
            IfOk result
            (λ _. machine.measure_of self.new
            ≡ machine.cut (limits.node at (machine.measure_of self.old))) }
    {
        before(at, &mut self.nodes, Limit::Nodes)?;
        before(at, &mut self.depth, Limit::Depth)?;
        self.fault = earlier(
            past(Limit::Depth, &self.depth),
            past(Limit::Nodes, &self.nodes),
        );
        Ok(())
    }

    /// These parts where their expressions stand in no other.
    fn leave(&mut self)
        ensures { machine.measure_of self.new ≡ limits.outermost (machine.measure_of self.old) }
    {
        self.nodes.clear();
        self.depth.clear();
    }

    /// A statement above these parts.
    pub(super) fn statement(&mut self, at: usize) -> Result<(), AllocError>
        ensures { machine.cut (machine.measure_of self.old) ≡ machine.measure_of self.old →
            IfOk result
            (λ _. machine.measure_of self.new
            ≡ machine.cut (limits.statement at (machine.measure_of self.old))) }
    {
        before(at, &mut self.statements, Limit::Statements)?;
        before(at, &mut self.blocks, Limit::Blocks)?;
        self.leave();
        Ok(())
    }

    /// The declarator of a local, with these parts and the locals behind it.
    pub(super) fn local(&mut self, at: usize) -> Result<(), AllocError>
        ensures { machine.cut (machine.measure_of self.old) ≡ machine.measure_of self.old →
            IfOk result
            (λ _. machine.measure_of self.new
            ≡ machine.cut (limits.local at (machine.measure_of self.old))) }
    {
        before(at, &mut self.statements, Limit::Statements)?;
        self.leave();
        Ok(())
    }

    /// A function around these parts.
    pub(super) fn function(&mut self, at: usize) -> Result<(), AllocError>
        ensures { IfOk result
            (λ _. machine.measure_of self.new
            ≡ machine.cut (limits.function at (machine.measure_of self.old))) }
    {
        let inner = earlier(past(Limit::Blocks, &self.blocks), self.fault);
        self.fault = earlier(past(Limit::Statements, &self.statements), inner);
        self.functions.clear();
        self.functions.push(at)?;
        self.statements.clear();
        self.blocks.clear();
        self.leave();
        Ok(())
    }

    /// The first limit that a whole text passes.
    pub(super) fn first_limit(&self) -> Option<Fault>
        ensures { result ≡ limits.earlier
            (limits.past Limit.Functions (machine.measure_of self.now).functions)
            (machine.measure_of self.now).fault }
    {
        earlier(past(Limit::Functions, &self.functions), self.fault)
    }
}

/// What counts, with room for more.
pub(super) fn counted(
    alloc: Global,
    measure: Option<Box<Measure>>,
) -> Result<Box<Measure>, AllocError>
    ensures { IfOk result (λ b. machine.measure_of b.value ≡ machine.counted measure) }
{
    match measure {
        Some(measure) => Ok(measure),
        None => Ok(Box::new(alloc, Measure::nothing(alloc))?),
    }
}

/// Two parts side by side.
#[tactic(auto, using(crate::proofs::LimitsCut::cut_alone))]
pub(super) fn beside(
    left: Option<Box<Measure>>,
    right: Option<Box<Measure>>,
) -> Result<Option<Box<Measure>>, AllocError>
    ensures { IfOk result
        (λ measure. machine.counted measure
        ≡ machine.cut (limits.beside (machine.counted left) (machine.counted right))) }
{
    let Some(mut left) = left else {
        let Some(mut right) = right else {
            return Ok(None);
        };
        right.cut();
        return Ok(Some(right));
    };
    match right {
        Some(right) => left.join(Box::into_inner(right))?,
        None => left.cut(),
    }
    Ok(Some(left))
}

/// These parts where their expressions stand in no other.
pub(super) fn outermost(measure: Option<Box<Measure>>) -> Option<Box<Measure>>
    ensures { machine.counted result ≡ limits.outermost (machine.counted measure) }
{
    let mut measure = measure?;
    measure.leave();
    if measure.is_nothing() {
        return None;
    }
    Some(measure)
}
