//! What is to be done with a typed text. While it is done, it is told how far it is.

ghost use Rattle.std.specs.Prelude.{map, string_bytes};
ghost use Rattle.c_values.specs.CodeTypes as types;
ghost use Rattle.command_line.specs.Words.{target_of};
ghost use Rattle.command_line.specs.CodeCommand.{form_in};

use crate::programs::write_unit;
use crate::trial::tried;
use ac_base::Progress;
use answers::Answer;
use c_lang::tree::TypedUnit;
use c_values::Target;
use checking::checked;
use command_line::{Writing, target_of};
use running::ran;
use std::alloc::{AllocError, Global};
use text_answers::Task;

/// How programs are to be written, and by which options.
#[derive(Clone, Copy)]
pub(crate) struct Asked<'a> {
    pub(crate) writing: Writing,
    pub(crate) options: &'a [String],
}

/// Its programs are written.
#[derive(Drop)]
pub(crate) struct Writes<'a, P> {
    pub(crate) asked: Asked<'a>,
    pub(crate) progress: &'a P,
}

impl<P: Progress> Task for Writes<'_, P> {
    ghost use Rattle.ac_core.specs.Written.{IsWritten};

    ghost target_for = { λ task. target_of (map string_bytes task.asked.options.now) };

    ghost answers = { λ task. IsWritten (form_in task.asked.writing)
        (map string_bytes task.asked.options.now) };

    fn target(&self) -> Target {
        target_of(self.asked.options)
    }

    fn answer(&self, alloc: Global, unit: TypedUnit) -> Result<Answer, AllocError> {
        write_unit(alloc, &unit, self.asked, self.progress)
    }
}

/// A certificate is checked for it.
#[derive(Drop)]
pub(crate) struct Checks<'a, P> {
    pub(crate) target: Target,
    pub(crate) certificate: &'a [u8],
    pub(crate) progress: &'a P,
}

impl<P: Progress> Task for Checks<'_, P> {
    ghost use Rattle.checking.specs.Checked.{IsChecked};

    ghost target_for = { λ task. types.target_of task.target };

    ghost answers = { λ task. IsChecked (types.target_of task.target) task.certificate.now };

    fn target(&self) -> Target {
        self.target
    }

    fn answer(&self, alloc: Global, unit: TypedUnit) -> Result<Answer, AllocError> {
        checked(alloc, &unit, self.target, self.certificate, self.progress)
    }
}

/// A function of it is run from a memory, beside its program in a certificate.
#[derive(Drop)]
pub(crate) struct Runs<'a, P> {
    pub(crate) target: Target,
    pub(crate) certificate: &'a [u8],
    pub(crate) memory: &'a [u8],
    pub(crate) progress: &'a P,
}

impl<P: Progress> Task for Runs<'_, P> {
    ghost use Rattle.running.specs.Ran.{IsRan};

    ghost target_for = { λ task. types.target_of task.target };

    ghost answers = { λ task. IsRan (types.target_of task.target) task.certificate.now
        task.memory.now };

    fn target(&self) -> Target {
        self.target
    }

    fn answer(&self, alloc: Global, unit: TypedUnit) -> Result<Answer, AllocError> {
        ran(
            alloc,
            &unit,
            self.target,
            self.certificate,
            self.memory,
            self.progress,
        )
    }
}

/// It is translated, and its certificate checked.
#[derive(Drop)]
pub(crate) struct Tries<'a, P> {
    pub(crate) target: Target,
    pub(crate) progress: &'a P,
}

impl<P: Progress> Task for Tries<'_, P> {
    ghost use Rattle.ac_core.specs.Trial.{IsTried};

    ghost target_for = { λ task. types.target_of task.target };

    ghost answers = { λ task. IsTried (types.target_of task.target) };

    fn target(&self) -> Target {
        self.target
    }

    fn answer(&self, alloc: Global, unit: TypedUnit) -> Result<Answer, AllocError> {
        tried(alloc, &unit, self.target, self.progress)
    }
}
