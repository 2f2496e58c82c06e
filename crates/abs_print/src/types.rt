//! Types.

ghost use Rattle.std.specs.Prelude.{◌≡◌, ◌++◌, OnOk};
ghost use Rattle.c_values.specs.CodeTypes.{type_of};
ghost use Rattle.c_values.specs.Types.{Struct};
ghost use Rattle.abs_print.specs.Expressions.{type_text};

use crate::endings::{Ending, push_endings};
use crate::texts::push;
use c_values::CType;
use expression_text::int_type_word;
use std::alloc::AllocError;

/// A type. It goes down the type by a loop, since a text may nest types deeply.
#[tactic(auto, using(crate::proofs::Along::endings_push))]
pub(crate) fn push_type(out: &mut Vec<u8>, t: &CType) -> Result<(), AllocError>
    ensures { OnOk result (out.new.items ≡ out.old.items ++ type_text (type_of t.now)) }
{
    let mut endings = Vec::new(*out.allocator());
    let mut inner = t;
    'down: loop {
        match inner {
            CType::Ptr(next) => {
                push(out, "(ptr ")?;
                endings.push(Ending::List)?;
                inner = &**next;
            }
            CType::Array(next, length) => {
                push(out, "(array ")?;
                endings.push(Ending::Length(*length))?;
                inner = &**next;
            }
            CType::Int(integer) => {
                push(out, int_type_word(*integer))?;
                return push_endings(out, endings);
            }
            CType::Void => {
                push(out, "void")?;
                return push_endings(out, endings);
            }
            CType::Struct(name) => {
                push_struct(out, name.as_str())?;
                return push_endings(out, endings);
            }
        }
    }
}

fn push_struct(out: &mut Vec<u8>, name: &str) -> Result<(), AllocError>
    ensures { OnOk result (out.new.items ≡ out.old.items ++ type_text (Struct name.now)) }
{
    push(out, "(struct ")?;
    push(out, name)?;
    push(out, ")")
}
