//! Lines of steps that have no programs inside, and the first lines of those that have.

ghost use Rattle.std.specs.Prelude.{◌≡◌, ◌++◌, map, string_bytes, OnOk};
ghost use Rattle.expression_lang.specs.CodeExpression.{exp_of, path_of, kind_of};
ghost use Rattle.c_values.specs.CodeTypes.{type_of};
ghost use Rattle.monad_lang.specs.CodeProgram.{place_of, start_of, mon_of};
ghost use Rattle.monad_lang.specs.Program.{Written};
ghost use Rattle.abs_print.specs.Programs.{kind_text, names_text, place_text, return_text, guard_text, if_text, write_text, loop_text, call_text, pick_text, lines};
ghost use Rattle.abs_print.specs.CodeLines.{first_line, IsPlain};

use crate::expressions::{push_exp, push_steps};
use crate::texts::{Shown, push, push_behind_space, push_natural, push_parted};
use crate::types::push_type;
use c_values::CType;
use expression_lang::{Exp, Kind, Path};
use monad_lang::{Mon, Place, Start};
use std::alloc::AllocError;

impl Shown for Kind {
    ghost use Rattle.expression_lang.specs.CodeExpression.{kind_of};
    ghost use Rattle.abs_print.specs.Programs.{kind_text};

    ghost text = { λ kind. kind_text (kind_of kind) };

    fn push_to(&self, out: &mut Vec<u8>) -> Result<(), AllocError> {
        push_kind(out, *self)
    }
}

impl Shown for Start {
    ghost use Rattle.monad_lang.specs.CodeProgram.{start_of};
    ghost use Rattle.abs_print.specs.Programs.{start_text};

    ghost text = { λ start. start_text (start_of start) };

    fn push_to(&self, out: &mut Vec<u8>) -> Result<(), AllocError> {
        push(out, self.name.as_str())?;
        push(out, " = ")?;
        push_exp(out, &self.exp)
    }
}

/// A kind, without parentheses.
pub(crate) fn push_kind(out: &mut Vec<u8>, kind: Kind) -> Result<(), AllocError>
    ensures { OnOk result (out.new.items ≡ out.old.items ++ kind_text (kind_of kind)) }
{
    let (word, width) = match kind {
        Kind::Word(width) => ("w ", width),
        Kind::Nat(width) => ("nat ", width),
        Kind::Int(width) => ("int ", width),
        Kind::Bool => return push(out, "bool"),
    };
    push(out, word)?;
    push_natural(out, u64::from(width))
}

/// The names of a step's values, and the arrow behind them.
pub(crate) fn push_names(out: &mut Vec<u8>, names: &[String]) -> Result<(), AllocError>
    ensures { OnOk result (out.new.items ≡ out.old.items ++ names_text
        (map string_bytes names.now)) }
{
    if names.is_empty() {
        return Ok(());
    }
    push_parted(out, ", ", names)?;
    push(out, " <- ")
}

/// The line of a program that has no programs inside.
pub(crate) fn push_line(out: &mut Vec<u8>, program: &Mon) -> Result<(), AllocError>
    requires { IsPlain (mon_of program.now) }
    ensures { OnOk result
        (out.new.items ≡ out.old.items ++ first_line (lines (mon_of program.now))) }
{
    match program {
        Mon::Ret(values) => push_return(out, values),
        Mon::Guard(condition) => push_guard(out, condition),
        Mon::Write(place, value) => push_write(out, place, value),
        Mon::Call(function, arguments) => push_call(out, function.as_str(), arguments),
        Mon::Pick(kind) => push_pick(out, *kind),
        Mon::Bind(_, _, _) | Mon::If(_, _, _) | Mon::Loop(_, _, _, _) => unreachable!(),
    }
}

fn push_return(out: &mut Vec<u8>, values: &[Exp]) -> Result<(), AllocError>
    ensures { OnOk result (out.new.items ≡ out.old.items ++ return_text (map exp_of values.now)) }
{
    push(out, "return")?;
    push_behind_space(out, values)
}

fn push_guard(out: &mut Vec<u8>, condition: &Exp) -> Result<(), AllocError>
    ensures { OnOk result (out.new.items
        ≡ out.old.items ++ guard_text (exp_of condition.now)) }
{
    push(out, "guard ")?;
    push_exp(out, condition)
}

/// The first line of a choice.
pub(crate) fn push_test(out: &mut Vec<u8>, test: &Exp) -> Result<(), AllocError>
    ensures { OnOk result (out.new.items ≡ out.old.items ++ if_text (exp_of test.now)) }
{
    push(out, "if ")?;
    push_exp(out, test)
}

/// The first line of a loop.
pub(crate) fn push_loop(
    out: &mut Vec<u8>,
    starts: &[Start],
    guard: &Exp,
    test: &Exp,
) -> Result<(), AllocError>
    ensures { OnOk result (out.new.items
        ≡ out.old.items ++ loop_text (map start_of starts.now) (exp_of guard.now)
        (exp_of test.now)) }
{
    push(out, "loop")?;
    push_behind_space(out, starts)?;
    push(out, " guard ")?;
    push_exp(out, guard)?;
    push(out, " test ")?;
    push_exp(out, test)
}

fn push_call(out: &mut Vec<u8>, function: &str, arguments: &[Exp]) -> Result<(), AllocError>
    ensures { OnOk result (out.new.items
        ≡ out.old.items ++ call_text function.now (map exp_of arguments.now)) }
{
    push(out, "call ")?;
    push(out, function)?;
    push(out, "(")?;
    push_parted(out, ", ", arguments)?;
    push(out, ")")
}

fn push_pick(out: &mut Vec<u8>, kind: Kind) -> Result<(), AllocError>
    ensures { OnOk result (out.new.items ≡ out.old.items ++ pick_text (kind_of kind)) }
{
    push(out, "pick ")?;
    push_kind(out, kind)
}

fn push_write(out: &mut Vec<u8>, place: &Place, value: &Exp) -> Result<(), AllocError>
    ensures { OnOk result (out.new.items
        ≡ out.old.items ++ write_text (place_of place.now) (exp_of value.now)) }
{
    push_place(out, place)?;
    push(out, " := ")?;
    push_exp(out, value)
}

fn push_place(out: &mut Vec<u8>, place: &Place) -> Result<(), AllocError>
    ensures { OnOk result (out.new.items ≡ out.old.items ++ place_text (place_of place.now)) }
{
    match place {
        Place::Stored(ty, pointer, path) | Place::Written(ty, pointer, path) => {
            push_object(out, ty, pointer, path)
        }
        Place::Global(name, path) => {
            push(out, name.as_str())?;
            push_steps(out, path)
        }
    }
}

// A part of an object, by its type and its address.
fn push_object(out: &mut Vec<u8>, ty: &CType, pointer: &Exp, path: &Path) -> Result<(), AllocError>
    ensures { OnOk result (out.new.items ≡ out.old.items
        ++ place_text (Written (type_of ty.now) (exp_of pointer.now) (path_of path.now))) }
{
    push_type(out, ty)?;
    push(out, " ")?;
    push_exp(out, pointer)?;
    push_steps(out, path)
}
