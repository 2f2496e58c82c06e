//! Kinds as trees, both ways.
ghost use Rattle.std.specs.Prelude.{◌≡◌, ◌≢◌, OnOk, IfSome, IfNone, Some};
ghost use Rattle.std.specs.Fmt.{decimal};
ghost use Rattle.ac_sx.specs.Tree.{Atom, Node, no_trees, more};
ghost use Rattle.ac_sx.specs.CodeSx.{tree_of, trees_in, one_of};
ghost use Rattle.ac_sx.specs.Writing.{written};
ghost use Rattle.expression_lang.specs.CodeExpression.{kind_of};
ghost use Rattle.expression_text.specs.CodeFault.{Gives};
ghost use Rattle.program_text.specs.Kinds as text;
ghost use Rattle.program_text.specs.Kinds.{kind_head_word, kind_tree, sized_kind_at, kind_at};
ghost use Rattle.program_text.specs.declared.kinds.KindHead as H;

use ac_sx::{Sx, TreeWriter, headed, one};
use expression_lang::Kind;
use expression_text::{TextFault, begin_list, natural_into, next, width_at};
use std::alloc::AllocError;

/// What a kind of so many bits begins with.
#[derive(Clone, Copy)]
pub(crate) enum KindHead {
    Word,
    Nat,
    Int,
}

impl KindHead {
    fn of_width(self, width: u8) -> Kind
        ensures { kind_of result ≡ text.of_width self width }
    {
        match self {
            KindHead::Word => Kind::Word(width),
            KindHead::Nat => Kind::Nat(width),
            KindHead::Int => Kind::Int(width),
        }
    }
}

fn kind_head(word: &str) -> Option<KindHead>
    ensures some { IfSome result (λ h. word.now ≡ kind_head_word h) }
    ensures none { IfNone result ((h : H.KindHead) → word.now ≢ kind_head_word h) }
{
    match word {
        "w" => Some(KindHead::Word),
        "nat" => Some(KindHead::Nat),
        "int" => Some(KindHead::Int),
        _ => None,
    }
}

/// The kind that a tree is.
pub fn kind_at(tree: &Sx, at: u32) -> Result<(Kind, u32), TextFault>
    ensures { Gives kind_of result (kind_at at (tree_of tree.now)) }
{
    if let Some(word) = tree.word() {
        if word == "bool" {
            return Ok((Kind::Bool, next(at)));
        }
        return Err(TextFault::Shape(at));
    }
    let Some((head, parts)) = headed(tree) else {
        return Err(TextFault::Shape(at));
    };
    match kind_head(head) {
        Some(head) => sized_kind_at(at, next(next(at)), head, parts),
        None => Err(TextFault::Shape(at)),
    }
}

fn sized_kind_at(
    at: u32,
    inner: u32,
    head: KindHead,
    parts: &[Sx],
) -> Result<(Kind, u32), TextFault>
    ensures { Gives kind_of result
        (sized_kind_at at inner (Some head) (one_of (trees_in parts.now))) }
{
    let Some(width) = one(parts) else {
        return Err(TextFault::Shape(at));
    };
    let (width, at) = width_at(width, inner)?;
    Ok((head.of_width(width), at))
}

/// Writes a kind.
pub fn kind_into<W: TreeWriter>(out: &mut W, kind: Kind) -> Result<(), AllocError>
    ensures { OnOk result (W.state out.new
        ≡ written W.writing (W.state out.old) (kind_tree (kind_of kind))) }
{
    match kind {
        Kind::Word(width) => sized_kind_into(out, "w", width),
        Kind::Nat(width) => sized_kind_into(out, "nat", width),
        Kind::Int(width) => sized_kind_into(out, "int", width),
        Kind::Bool => out.atom("bool"),
    }
}

fn sized_kind_into<W: TreeWriter>(out: &mut W, word: &str, width: u8) -> Result<(), AllocError>
    ensures { OnOk result (W.state out.new ≡ written W.writing (W.state out.old)
        (Node (more (Atom word.now) (more (Atom (decimal width)) no_trees)))) }
{
    begin_list(out, word)?;
    natural_into(out, u64::from(width))?;
    out.leave()
}
