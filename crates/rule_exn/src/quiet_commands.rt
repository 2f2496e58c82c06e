//! Which commands throw nothing.

ghost use Rattle.std.specs.Prelude.{◌≡◌};
ghost use Rattle.simpl_lang.specs.CodeCommand.{simpl_of};
ghost use Rattle.rule_exn.specs.Quiet.{quiet};

use simpl_lang::Simpl;

/// Whether a command is quiet: it ends without an exception whenever it ends, by the look of it. It
/// goes along the last parts by a loop. Of a catch the handler is looked at first, which most often
/// is a skip.
pub fn quiet(c: &Simpl) -> bool
    ensures { result ≡ quiet (simpl_of c.now) }
{
    let mut rest = c;
    'down: loop {
        match rest {
            Simpl::Skip
            | Simpl::Set(_, _)
            | Simpl::SetGlobal(_, _, _)
            | Simpl::Store(_, _, _, _)
            | Simpl::Pick(_)
            | Simpl::Call(_, _, _) => return true,
            Simpl::Throw => return false,
            Simpl::Seq(first, last) | Simpl::Cond(_, first, last) => {
                if !quiet(first) {
                    return false;
                }
                rest = &**last;
            }
            Simpl::Catch(body, handler) => {
                if quiet(handler) {
                    return true;
                }
                rest = &**body;
            }
            Simpl::Guard(_, last) | Simpl::While(_, _, last) => rest = &**last,
        }
    }
}
