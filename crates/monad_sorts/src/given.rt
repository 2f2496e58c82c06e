//! Which programs give values of the same scalars.

ghost use Rattle.std.specs.Prelude.{◌≡◌, ◌↔◌, IsTrue, List, Some};
ghost use Rattle.expression_lang.specs.Sort as plain;
ghost use Rattle.monad_lang.specs.Sorted.{scalars_given};
ghost use Rattle.monad_lang.specs.CodeProgram.{mon_of};
ghost use Rattle.monad_sorts.specs.CodeInside.{setting_in, scalars_in};

use crate::inside::Inside;
use crate::settings::Setting;
use crate::sorted::{is_sorted, same_values};
use monad_lang::Mon;

/// Whether two programs are well-sorted there, and give as many values, of the same scalars. It
/// takes no memory.
#[tactic(auto, using(crate::proofs::SameGiven::given_is_sorted))]
pub fn give_same(m: &Mon, other: &Mon, inside: &Inside<'_>, setting: Setting<'_>) -> bool
    ensures { let t = setting_in setting.entry (scalars_in inside.now) in
        IsTrue result ↔ ((given : List plain.Scalar)
        × (scalars_given t (mon_of m.now) ≡ Some given)
        × (scalars_given t (mon_of other.now) ≡ Some given)) }
{
    is_sorted(other, inside, setting) && gives_as(m, other, inside, setting)
}

/// The same where the second is known to be well-sorted, which isn't looked at again.
#[tactic(auto, using(crate::proofs::SameGiven::given_is_sorted))]
pub fn gives_as(m: &Mon, other: &Mon, inside: &Inside<'_>, setting: Setting<'_>) -> bool
    requires { (given : List plain.Scalar)
        × (scalars_given (setting_in setting (scalars_in inside.now)) (mon_of other.now)
        ≡ Some given) }
    ensures { let t = setting_in setting.entry (scalars_in inside.now) in
        IsTrue result ↔ ((given : List plain.Scalar)
        × (scalars_given t (mon_of m.now) ≡ Some given)
        × (scalars_given t (mon_of other.now) ≡ Some given)) }
{
    let here = Inside::Passed(&*inside, setting, m, 0);
    is_sorted(m, inside, setting) && same_values(m, inside, other, &here, setting)
}
