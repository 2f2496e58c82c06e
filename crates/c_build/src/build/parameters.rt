//! Parameters are built from their parts.

ghost use Rattle.std.specs.Prelude.{◌≡◌, map};
ghost use Rattle.c_grammar.specs.CodeTree.{param_of, words_of};
ghost use Rattle.c_grammar.specs.Spells.{parameters};
ghost use Rattle.c_build.specs.Void.{is_void, is_void_word};
ghost use Rattle.c_build.specs.CodeValues.{Acts, values_of};

use crate::build::stack::{BuildFault, Stack};
use crate::build::tokens::name_of;
use crate::build::value::Value;
use c_grammar::Production;
use c_grammar::tree::{Bracket, Param, Word, Words};
use c_lex::Keyword;
use std::alloc::Global;

/// Whether the words of a type are `void` alone.
fn is_void_word(words: &Words) -> bool
    ensures { result ≡ is_void_word (words_of words.now) }
{
    match words {
        Words::More(word, rest) => matches!(
            (&**word, &**rest),
            (Word::Reserved(_, Keyword::Void), Words::None)
        ),
        Words::None => false,
    }
}

/// Whether a parameter is `void` alone.
fn is_void(parameter: &Param) -> bool
    ensures { result ≡ is_void (param_of parameter.now) }
{
    is_void_word(&parameter.words)
        && parameter.stars.is_empty()
        && parameter.name.is_none()
        && matches!(parameter.bracket, Bracket::None)
}

/// The parameters: none where `void` stands alone.
fn without_void(alloc: Global, listed: Stack<Param>) -> Vec<Param>
    ensures { map param_of result.items ≡ parameters (map param_of listed) }
{
    let listed = listed.into_vec();
    match listed.as_slice() {
        [only] if is_void(only) => Vec::new(alloc),
        _ => listed,
    }
}

#[tactic(auto, unfolding(c_grammar::specs::CodeBuild::act))]
impl Stack<Value<'_>> {
    /// A declarator without parameters.
    pub(crate) fn no_parameters(&mut self) -> Result<(), BuildFault>
        ensures { Acts Production.NoParameters (values_of self.old) result (values_of self.new) }
    {
        self.put(Value::Parameters(None))
    }

    /// Parameters of a declarator.
    pub(crate) fn some_parameters(&mut self, alloc: Global) -> Result<(), BuildFault>
        ensures { Acts Production.SomeParameters (values_of self.old) result (values_of self.new) }
    {
        let listed = self.parameter_list()?;
        self.token()?;
        self.put(Value::Parameters(Some(without_void(alloc, listed))))
    }

    /// No parameters in the parentheses.
    pub(crate) fn empty_parameters(&mut self, alloc: Global) -> Result<(), BuildFault>
        ensures { Acts Production.EmptyParameters (values_of self.old) result (values_of self.new) }
    {
        self.token()?;
        self.put(Value::ParameterList(Stack::new(alloc)))
    }

    /// The last parameter.
    pub(crate) fn last_parameter(&mut self, alloc: Global) -> Result<(), BuildFault>
        ensures { Acts Production.LastParameter (values_of self.old) result (values_of self.new) }
    {
        self.token()?;
        let parameter = self.parameter()?;
        let mut parameters = Stack::new(alloc);
        parameters.push(Box::into_inner(parameter))?;
        self.put(Value::ParameterList(parameters))
    }

    /// A parameter before others.
    pub(crate) fn more_parameters(&mut self) -> Result<(), BuildFault>
        ensures { Acts Production.MoreParameters (values_of self.old) result (values_of self.new) }
    {
        let mut parameters = self.parameter_list()?;
        self.token()?;
        let parameter = self.parameter()?;
        parameters.push(Box::into_inner(parameter))?;
        self.put(Value::ParameterList(parameters))
    }

    /// A parameter.
    pub(crate) fn whole_parameter(&mut self, alloc: Global) -> Result<(), BuildFault>
        ensures { Acts Production.Parameter (values_of self.old) result (values_of self.new) }
    {
        let bracket = Box::into_inner(self.bracket()?);
        let name = self.parameter_name()?;
        let stars = self.stars()?.into_vec();
        let words = Box::into_inner(self.words()?);
        let parameter = Param {
            words,
            stars,
            name,
            bracket,
        };
        self.put(Value::Parameter(Box::new(alloc, parameter)?))
    }

    /// The name of a parameter.
    pub(crate) fn some_parameter_name(&mut self, alloc: Global) -> Result<(), BuildFault>
        ensures { Acts Production.ParameterName (values_of self.old) result (values_of self.new) }
    {
        let token = self.token()?;
        let name = name_of(alloc, token)?;
        self.put(Value::ParameterName(Some((token.start, name))))
    }

    /// A parameter without a name.
    pub(crate) fn no_parameter_name(&mut self) -> Result<(), BuildFault>
        ensures { Acts Production.NoParameterName (values_of self.old) result (values_of self.new) }
    {
        self.put(Value::ParameterName(None))
    }

    /// A parameter without brackets.
    pub(crate) fn no_bracket(&mut self, alloc: Global) -> Result<(), BuildFault>
        ensures { Acts Production.NoBracket (values_of self.old) result (values_of self.new) }
    {
        self.put(Value::Bracket(Box::new(alloc, Bracket::None)?))
    }

    /// `[]`
    pub(crate) fn open_bracket(&mut self, alloc: Global) -> Result<(), BuildFault>
        ensures { Acts Production.OpenBracket (values_of self.old) result (values_of self.new) }
    {
        self.token()?;
        let at = self.token()?.start;
        self.put(Value::Bracket(Box::new(alloc, Bracket::Open(at))?))
    }

    /// `[e]`
    pub(crate) fn sized_bracket(&mut self, alloc: Global) -> Result<(), BuildFault>
        ensures { Acts Production.SizedBracket (values_of self.old) result (values_of self.new) }
    {
        self.token()?;
        let length = self.expression()?;
        let at = self.token()?.start;
        self.put(Value::Bracket(Box::new(alloc, Bracket::Length(at, Box::into_inner(length)))?))
    }
}
