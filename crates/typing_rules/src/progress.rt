//! What a function's text has numbered and named so far.

ghost use Rattle.std.specs.Prelude.{◌≡◌, ◌+◌, ◌^◌, ◌<◌, ◌≤◌, count_by, length, map, string_bytes, IfOk, MatchResult};
ghost use Rattle.c_values.specs.Name.{same_name};
ghost use Rattle.c_values.specs.CodeTypes.{type_of};
ghost use Rattle.typing_rules.specs.Progress as progress;
ghost use Rattle.typing_rules.specs.declared.rulings.Refusal.TheVariants.{Memory};

use crate::rulings::Refusal;
use c_lang::tree::Variable;
use c_values::{CType, copy_of};
use std::alloc::{AllocError, Global};

/// What a function's text has numbered and named so far.
#[derive(Debug, Drop)]
pub struct Progress {
    /// The number of the last call, of the last switch, and of the last do-while.
    pub calls: u64,
    pub switches: u64,
    pub do_whiles: u64,
    /// The names of its parameters and locals as the text has them, once for each declaration.
    pub declared: Vec<String>,
    /// Its locals by their own names, in the order of the text.
    pub locals: Vec<Variable>,
}

impl Progress {
    ghost use Rattle.std.specs.Prelude.{◌≡◌, map, string_bytes, IfOk, OnOk};
    ghost use Rattle.c_values.specs.CodeTypes.{type_of};
    ghost use Rattle.typing_rules.specs.Progress.{at_start, own_name, with_local};
    ghost use Rattle.typing_rules.specs.CodeProgress.{progress_of};

    /// In front of a body, behind these parameters.
    pub fn at_start(alloc: Global, params: Vec<String>) -> Progress
        ensures { progress_of result ≡ at_start (map string_bytes params.items) }
    {
        Progress {
            calls: 0,
            switches: 0,
            do_whiles: 0,
            declared: params,
            locals: Vec::new(alloc),
        }
    }

    /// A name for the next parameter or local of this name: no other variable of the function has it.
    pub fn own_name(&self, alloc: Global, name: &str) -> Result<String, AllocError>
        ensures { IfOk result (λ own. string_bytes own ≡ own_name (progress_of self.now) name.now) }
    {
        numbered(alloc, name, count_of(self.declared.as_slice(), name))
    }

    /// Adds a local.
    pub fn add_local(
        &mut self,
        alloc: Global,
        own: &str,
        name: &str,
        ty: &CType,
    ) -> Result<(), AllocError>
        ensures { OnOk result (progress_of self.new ≡ with_local own.now name.now (type_of ty.now)
            (progress_of self.old)) }
    {
        let name = String::from_str(alloc, name)?;
        let local = Variable {
            name: String::from_str(alloc, own)?,
            ty: copy_of(alloc, ty)?,
        };
        self.declared.push(name)?;
        self.locals.push(local)?;
        Ok(())
    }
}

/// The number behind this one. No memory holds a text in which so many things are numbered that there is none.
pub fn following(number: u64) -> Result<u64, Refusal>
    ensures { MatchResult result (λ next. next ≡ number + 1) (λ e. e ≡ Memory) }
{
    match number.checked_add(1) {
        Some(next) => Ok(next),
        None => Err(Refusal::Memory),
    }
}

// How often a name is among others.
fn count_of(names: &[String], name: &str) -> usize
    ensures value { result ≡ count_by (λ y. same_name y name.now) (map string_bytes names.now) }
    ensures within { result ≤ length names.now }
{
    names.iter().filter(|other| other.as_str() == name).count()
}

// The name of a variable that so many others of its name stand before. No name of a text has a `$`.
#[tactic(auto, using(crate::proofs::Naming::numbered_again))]
fn numbered(alloc: Global, name: &str, others: usize) -> Result<String, AllocError>
    requires { others < 2 ^ 63 }
    ensures { IfOk result (λ own. string_bytes own ≡ progress.numbered name.now others) }
{
    if others == 0 {
        String::from_str(alloc, name)
    } else {
        let mut own = String::from_str(alloc, name)?;
        own.push_str("$")?;
        let number = (others + 1).to_string(alloc)?;
        own.push_str(number.as_str())?;
        Ok(own)
    }
}
