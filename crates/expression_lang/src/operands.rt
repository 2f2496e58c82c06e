//! The parts of expressions.
#![tactic(auto, using(crate::proofs::ReadyParts::ready_first, crate::proofs::ReadyParts::ready_second, crate::proofs::ReadyParts::ready_path))]

ghost use Rattle.std.specs.Prelude.{◌≡◌, ◌<◌};
ghost use Rattle.expression_lang.specs.declared.expression.Exp.{size-Exp};
ghost use Rattle.expression_lang.specs.declared.paths.Path.{size-Path};
ghost use Rattle.expression_lang.specs.CodeArity.{first_part, second_part, path_part, HasFirst, HasSecond, HasPath};
ghost use Rattle.expression_lang.specs.CodeExpression.{exp_of, path_of};
ghost use Rattle.expression_lang.specs.CodeScene.{scene_of, ReadyIn, ReadyAlong};

use crate::expression::Exp;
use crate::paths::Path;
use crate::scene::Scene;
use c_memory::Heap;

/// The first part.
pub(crate) fn first(e: &Exp) -> &Exp
    requires { HasFirst (exp_of e.now) }
    ensures same { exp_of result.now ≡ first_part (exp_of e.now) }
    ensures smaller { size-Exp result.now < size-Exp e.now }
{
    match e {
        Exp::WordBinary(_, a, _) => a,
        Exp::WordShift(_, a, _) => a,
        Exp::WordUnary(_, a) => a,
        Exp::WordCompare(_, a, _) => a,
        Exp::Cast(_, _, a) => a,
        Exp::ToNat(a) => a,
        Exp::ToInt(a) => a,
        Exp::ToWord(_, a) => a,
        Exp::Arith(_, a, _) => a,
        Exp::Negate(a) => a,
        Exp::Lt(a, _) => a,
        Exp::Le(a, _) => a,
        Exp::Between(_, a, _) => a,
        Exp::Eq(a, _) => a,
        Exp::And(a, _) => a,
        Exp::Or(a, _) => a,
        Exp::Imp(a, _) => a,
        Exp::Not(a) => a,
        Exp::Padd(_, p, _) => p,
        Exp::At(_, p, _) => p,
        Exp::Load(_, p, _) => p,
        Exp::Read(_, p, _) => p,
        Exp::Tagged(_, p) => p,
        Exp::PtrOk(_, p) => p,
        Exp::Sel(e, _) => e,
        Exp::Upd(e, _, _) => e,
        Exp::Var(_) | Exp::Word(_) | Exp::Number(_) => unreachable!(),
        Exp::Truth(_) | Exp::If(_, _, _) | Exp::Global(_, _) => unreachable!(),
    }
}

/// The second of two operands, or what an update puts in.
pub(crate) fn second(e: &Exp) -> &Exp
    requires { HasSecond (exp_of e.now) }
    ensures same { exp_of result.now ≡ second_part (exp_of e.now) }
    ensures smaller { size-Exp result.now < size-Exp e.now }
{
    match e {
        Exp::WordBinary(_, _, b) => b,
        Exp::WordShift(_, _, n) => n,
        Exp::WordCompare(_, _, b) => b,
        Exp::Arith(_, _, b) => b,
        Exp::Lt(_, b) => b,
        Exp::Le(_, b) => b,
        Exp::Eq(_, b) => b,
        Exp::And(_, b) => b,
        Exp::Or(_, b) => b,
        Exp::Imp(_, b) => b,
        Exp::Padd(_, _, n) => n,
        Exp::Upd(_, _, v) => v,
        _ => unreachable!(),
    }
}

/// The path.
pub(crate) fn path_in(e: &Exp) -> &Path
    requires { HasPath (exp_of e.now) }
    ensures same { path_of result.now ≡ path_part (exp_of e.now) }
    ensures smaller { size-Path result.now < size-Exp e.now }
{
    match e {
        Exp::At(_, _, path) => path,
        Exp::Load(_, _, path) => path,
        Exp::Read(_, _, path) => path,
        Exp::Global(_, path) => path,
        Exp::Sel(_, path) => path,
        Exp::Upd(_, path, _) => path,
        _ => unreachable!(),
    }
}

impl<H: Heap> Scene<'_, H> {
    /// The first part, which is ready where the whole is.
    pub(crate) fn first_part<'e>(&self, e: &'e Exp) -> &'e Exp
        requires ready { ReadyIn (scene_of H.content self.now) (exp_of e.now) }
        requires head { HasFirst (exp_of e.now) }
        ensures same { exp_of result.now ≡ first_part (exp_of e.now) }
        ensures ready { ReadyIn (scene_of H.content self.now) (exp_of result.now) }
        ensures smaller { size-Exp result.now < size-Exp e.now }
    {
        first(e)
    }

    /// The second of two operands, or what an update puts in, ready alike.
    pub(crate) fn second_part<'e>(&self, e: &'e Exp) -> &'e Exp
        requires ready { ReadyIn (scene_of H.content self.now) (exp_of e.now) }
        requires head { HasSecond (exp_of e.now) }
        ensures same { exp_of result.now ≡ second_part (exp_of e.now) }
        ensures ready { ReadyIn (scene_of H.content self.now) (exp_of result.now) }
        ensures smaller { size-Exp result.now < size-Exp e.now }
    {
        second(e)
    }

    /// The path, whose indices are ready alike.
    pub(crate) fn path_part<'e>(&self, e: &'e Exp) -> &'e Path
        requires ready { ReadyIn (scene_of H.content self.now) (exp_of e.now) }
        requires head { HasPath (exp_of e.now) }
        ensures same { path_of result.now ≡ path_part (exp_of e.now) }
        ensures ready { ReadyAlong (scene_of H.content self.now) (path_of result.now) }
        ensures smaller { size-Path result.now < size-Exp e.now }
    {
        path_in(e)
    }
}
