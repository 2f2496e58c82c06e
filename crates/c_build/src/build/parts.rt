//! Parts are taken from the top of the values, each by its form.

ghost use Rattle.std.specs.Prelude.{ℕ, Some, map, string_bytes};
ghost use Rattle.std.specs.Option.{option_map};
ghost use Rattle.c_lex.specs.Lexeme.{lexeme_of};
ghost use Rattle.c_grammar.specs.Tree.{Name, Typed, Variable};
ghost use Rattle.c_grammar.specs.CodeTree.{bracket_of, call_of, decl_of, declarator_of, declarators_of, dimensions_of, enumerator_of, enumerators_of, exp_of, groups_of, init_of, items_of, label_of, local_of, members_of, param_of, rhs_of, simple_of, start_of, stmt_of, top_of, word_of, words_of};
ghost use Rattle.c_grammar.specs.CodeBuild.{OfBracket, OfCall, OfDeclarator, OfDeclarators, OfDimensions, OfEnumerator, OfEnumerators, OfExp, OfExps, OfExternal, OfGroups, OfInit, OfInits, OfItems, OfLabel, OfLabels, OfLocal, OfMembers, OfParam, OfParamName, OfParameters, OfParams, OfRhs, OfSimple, OfStars, OfStart, OfStep, OfStmt, OfTest, OfTop, OfTops, OfType, OfUnit, OfWord, OfWords, Tok};
ghost use Rattle.c_build.specs.CodeValues.{Takes, values_of};
ghost use Rattle.c_build.specs.Parts.{has_parameters, is_arguments, is_bracket, is_call, is_declarator, is_declarators, is_dimensions, is_enumerator, is_enumerators, is_expression, is_external, is_groups, is_initial, is_inits, is_items, is_label, is_labels, is_local, is_members, is_name, is_parameter, is_parameter_list, is_parameter_name, is_parameters, is_right, is_simple, is_stars, is_start, is_statement, is_step, is_test, is_text, is_token, is_top, is_tops, is_type_name, is_word, is_words};

use crate::build::stack::{BuildFault, Stack, misplaced};
use crate::build::value::Value;
use c_grammar::tree::{
    Bracket, CExp, Call, Decl, Declarator, Declarators, Dimensions, Enumerator, Enumerators,
    Groups, Init, Items, Label, Local, Members, Param, Rhs, Simple, Start, Stmt, Top, Word, Words,
};
use c_lex::Token;

#[tactic(auto, unfolding(crate::specs::CodeValues::values_of))]
impl<'a> Stack<Value<'a>> {
    /// Takes a token.
    pub(crate) fn token(&mut self) -> Result<&'a Token, BuildFault>
        ensures { Takes Tok is_token (λ t. lexeme_of t.now)
            (values_of self.old) result (values_of self.new) }
    {
        match self.pop() {
            Some(Value::Token(token)) => Ok(token),
            other => misplaced(other),
        }
    }

    /// Takes an expression.
    pub(crate) fn expression(&mut self) -> Result<Box<CExp>, BuildFault>
        ensures { Takes OfExp is_expression (λ e. exp_of e.value)
            (values_of self.old) result (values_of self.new) }
    {
        match self.pop() {
            Some(Value::Expression(expression)) => Ok(expression),
            other => misplaced(other),
        }
    }

    /// Takes an expression that is a name, and tells where it stands.
    pub(crate) fn name(&mut self) -> Result<(usize, String), BuildFault>
        ensures { Takes (λ (n : ℕ × Name). OfExp (Variable n.0 n.1)) is_name
            (λ n. (n.0, string_bytes n.1))
            (values_of self.old) result (values_of self.new) }
    {
        let expression = self.expression()?;
        match Box::into_inner(expression) {
            CExp::Name(at, name) => Ok((at, name)),
            other => misplaced(other),
        }
    }

    /// Takes the name of a type: its words, and the offset of each star.
    pub(crate) fn type_name(&mut self) -> Result<(Box<Words>, Vec<usize>), BuildFault>
        ensures { Takes OfType is_type_name (λ t. Typed (words_of t.0.value) t.1.items)
            (values_of self.old) result (values_of self.new) }
    {
        match self.pop() {
            Some(Value::TypeName(words, stars)) => Ok((words, stars)),
            other => misplaced(other),
        }
    }

    /// Takes a word of a type.
    pub(crate) fn word(&mut self) -> Result<Box<Word>, BuildFault>
        ensures { Takes OfWord is_word (λ w. word_of w.value)
            (values_of self.old) result (values_of self.new) }
    {
        match self.pop() {
            Some(Value::Word(word)) => Ok(word),
            other => misplaced(other),
        }
    }

    /// Takes the words of a type.
    pub(crate) fn words(&mut self) -> Result<Box<Words>, BuildFault>
        ensures { Takes OfWords is_words (λ ws. words_of ws.value)
            (values_of self.old) result (values_of self.new) }
    {
        match self.pop() {
            Some(Value::Words(words)) => Ok(words),
            other => misplaced(other),
        }
    }

    /// Takes the members of a struct.
    pub(crate) fn members(&mut self) -> Result<Box<Members>, BuildFault>
        ensures { Takes OfMembers is_members (λ ms. members_of ms.value)
            (values_of self.old) result (values_of self.new) }
    {
        match self.pop() {
            Some(Value::Members(members)) => Ok(members),
            other => misplaced(other),
        }
    }

    /// Takes the declarators of a member.
    pub(crate) fn declarators(&mut self) -> Result<Box<Declarators>, BuildFault>
        ensures { Takes OfDeclarators is_declarators (λ ds. declarators_of ds.value)
            (values_of self.old) result (values_of self.new) }
    {
        match self.pop() {
            Some(Value::Declarators(declarators)) => Ok(declarators),
            other => misplaced(other),
        }
    }

    /// Takes a declarator.
    pub(crate) fn declarator(&mut self) -> Result<Box<Declarator>, BuildFault>
        ensures { Takes OfDeclarator is_declarator (λ d. declarator_of d.value)
            (values_of self.old) result (values_of self.new) }
    {
        match self.pop() {
            Some(Value::Declarator(declarator)) => Ok(declarator),
            other => misplaced(other),
        }
    }

    /// Takes array lengths.
    pub(crate) fn dimensions(&mut self) -> Result<Box<Dimensions>, BuildFault>
        ensures { Takes OfDimensions is_dimensions (λ ds. dimensions_of ds.value)
            (values_of self.old) result (values_of self.new) }
    {
        match self.pop() {
            Some(Value::Dimensions(dimensions)) => Ok(dimensions),
            other => misplaced(other),
        }
    }

    /// Takes the offsets of stars.
    pub(crate) fn stars(&mut self) -> Result<Stack<usize>, BuildFault>
        ensures { Takes OfStars is_stars (λ stars. stars)
            (values_of self.old) result (values_of self.new) }
    {
        match self.pop() {
            Some(Value::Stars(stars)) => Ok(stars),
            other => misplaced(other),
        }
    }

    /// Takes the enumerators of an enum.
    pub(crate) fn enumerators(&mut self) -> Result<Box<Enumerators>, BuildFault>
        ensures { Takes OfEnumerators is_enumerators (λ es. enumerators_of es.value)
            (values_of self.old) result (values_of self.new) }
    {
        match self.pop() {
            Some(Value::Enumerators(enumerators)) => Ok(enumerators),
            other => misplaced(other),
        }
    }

    /// Takes an enumerator.
    pub(crate) fn enumerator(&mut self) -> Result<Box<Enumerator>, BuildFault>
        ensures { Takes OfEnumerator is_enumerator (λ e. enumerator_of e.value)
            (values_of self.old) result (values_of self.new) }
    {
        match self.pop() {
            Some(Value::Enumerator(enumerator)) => Ok(enumerator),
            other => misplaced(other),
        }
    }

    /// Takes the arguments of a call.
    pub(crate) fn arguments(&mut self) -> Result<Stack<CExp>, BuildFault>
        ensures { Takes OfExps is_arguments (map exp_of)
            (values_of self.old) result (values_of self.new) }
    {
        match self.pop() {
            Some(Value::Arguments(arguments)) => Ok(arguments),
            other => misplaced(other),
        }
    }

    /// Takes a call.
    pub(crate) fn call(&mut self) -> Result<Box<Call>, BuildFault>
        ensures { Takes OfCall is_call (λ c. call_of c.value)
            (values_of self.old) result (values_of self.new) }
    {
        match self.pop() {
            Some(Value::Call(call)) => Ok(call),
            other => misplaced(other),
        }
    }

    /// Takes what stands on the right.
    pub(crate) fn right(&mut self) -> Result<Box<Rhs>, BuildFault>
        ensures { Takes OfRhs is_right (λ r. rhs_of r.value)
            (values_of self.old) result (values_of self.new) }
    {
        match self.pop() {
            Some(Value::Right(right)) => Ok(right),
            other => misplaced(other),
        }
    }

    /// Takes a simple statement.
    pub(crate) fn simple(&mut self) -> Result<Box<Simple>, BuildFault>
        ensures { Takes OfSimple is_simple (λ s. simple_of s.value)
            (values_of self.old) result (values_of self.new) }
    {
        match self.pop() {
            Some(Value::Simple(simple)) => Ok(simple),
            other => misplaced(other),
        }
    }

    /// Takes the value of a local, or none.
    pub(crate) fn initial(&mut self) -> Result<Option<Box<Rhs>>, BuildFault>
        ensures { Takes OfInit is_initial (option_map (λ r. rhs_of r.value))
            (values_of self.old) result (values_of self.new) }
    {
        match self.pop() {
            Some(Value::Initial(initial)) => Ok(initial),
            other => misplaced(other),
        }
    }

    /// Takes the locals of a declaration.
    pub(crate) fn inits(&mut self) -> Result<Stack<Init>, BuildFault>
        ensures { Takes OfInits is_inits (map init_of)
            (values_of self.old) result (values_of self.new) }
    {
        match self.pop() {
            Some(Value::Inits(inits)) => Ok(inits),
            other => misplaced(other),
        }
    }

    /// Takes a declaration of locals.
    pub(crate) fn local(&mut self) -> Result<Box<Local>, BuildFault>
        ensures { Takes OfLocal is_local (λ l. local_of l.value)
            (values_of self.old) result (values_of self.new) }
    {
        match self.pop() {
            Some(Value::Local(local)) => Ok(local),
            other => misplaced(other),
        }
    }

    /// Takes a label of a switch.
    pub(crate) fn label(&mut self) -> Result<Box<Label>, BuildFault>
        ensures { Takes OfLabel is_label (λ l. label_of l.value)
            (values_of self.old) result (values_of self.new) }
    {
        match self.pop() {
            Some(Value::Label(label)) => Ok(label),
            other => misplaced(other),
        }
    }

    /// Takes further labels of a group.
    pub(crate) fn labels(&mut self) -> Result<Stack<Label>, BuildFault>
        ensures { Takes OfLabels is_labels (map label_of)
            (values_of self.old) result (values_of self.new) }
    {
        match self.pop() {
            Some(Value::Labels(labels)) => Ok(labels),
            other => misplaced(other),
        }
    }

    /// Takes the first part of the head of a `for`.
    pub(crate) fn start(&mut self) -> Result<Box<Start>, BuildFault>
        ensures { Takes OfStart is_start (λ s. start_of s.value)
            (values_of self.old) result (values_of self.new) }
    {
        match self.pop() {
            Some(Value::Start(start)) => Ok(start),
            other => misplaced(other),
        }
    }

    /// Takes a test or the value of a global, or none.
    pub(crate) fn test(&mut self) -> Result<Option<Box<CExp>>, BuildFault>
        ensures { Takes OfTest is_test (option_map (λ e. exp_of e.value))
            (values_of self.old) result (values_of self.new) }
    {
        match self.pop() {
            Some(Value::Test(test)) => Ok(test),
            other => misplaced(other),
        }
    }

    /// Takes the step of a `for`, or none.
    pub(crate) fn step(&mut self) -> Result<Option<Box<Simple>>, BuildFault>
        ensures { Takes OfStep is_step (option_map (λ s. simple_of s.value))
            (values_of self.old) result (values_of self.new) }
    {
        match self.pop() {
            Some(Value::Step(step)) => Ok(step),
            other => misplaced(other),
        }
    }

    /// Takes a statement.
    pub(crate) fn statement(&mut self) -> Result<Box<Stmt>, BuildFault>
        ensures { Takes OfStmt is_statement (λ s. stmt_of s.value)
            (values_of self.old) result (values_of self.new) }
    {
        match self.pop() {
            Some(Value::Statement(statement)) => Ok(statement),
            other => misplaced(other),
        }
    }

    /// Takes the items of a block.
    pub(crate) fn items(&mut self) -> Result<Box<Items>, BuildFault>
        ensures { Takes OfItems is_items (λ is. items_of is.value)
            (values_of self.old) result (values_of self.new) }
    {
        match self.pop() {
            Some(Value::Items(items)) => Ok(items),
            other => misplaced(other),
        }
    }

    /// Takes the groups of a switch.
    pub(crate) fn groups(&mut self) -> Result<Box<Groups>, BuildFault>
        ensures { Takes OfGroups is_groups (λ gs. groups_of gs.value)
            (values_of self.old) result (values_of self.new) }
    {
        match self.pop() {
            Some(Value::Groups(groups)) => Ok(groups),
            other => misplaced(other),
        }
    }

    /// Takes the brackets of a parameter.
    pub(crate) fn bracket(&mut self) -> Result<Box<Bracket>, BuildFault>
        ensures { Takes OfBracket is_bracket (λ b. bracket_of b.value)
            (values_of self.old) result (values_of self.new) }
    {
        match self.pop() {
            Some(Value::Bracket(bracket)) => Ok(bracket),
            other => misplaced(other),
        }
    }

    /// Takes the name of a parameter, or none.
    pub(crate) fn parameter_name(&mut self) -> Result<Option<(usize, String)>, BuildFault>
        ensures { Takes OfParamName is_parameter_name (option_map (λ n. (n.0, string_bytes n.1)))
            (values_of self.old) result (values_of self.new) }
    {
        match self.pop() {
            Some(Value::ParameterName(parameter_name)) => Ok(parameter_name),
            other => misplaced(other),
        }
    }

    /// Takes a parameter.
    pub(crate) fn parameter(&mut self) -> Result<Box<Param>, BuildFault>
        ensures { Takes OfParam is_parameter (λ p. param_of p.value)
            (values_of self.old) result (values_of self.new) }
    {
        match self.pop() {
            Some(Value::Parameter(parameter)) => Ok(parameter),
            other => misplaced(other),
        }
    }

    /// Takes what stands in the parentheses of a function.
    pub(crate) fn parameter_list(&mut self) -> Result<Stack<Param>, BuildFault>
        ensures { Takes OfParams is_parameter_list (map param_of)
            (values_of self.old) result (values_of self.new) }
    {
        match self.pop() {
            Some(Value::ParameterList(parameter_list)) => Ok(parameter_list),
            other => misplaced(other),
        }
    }

    /// Takes the parameters of a declarator, or none.
    pub(crate) fn parameters(&mut self) -> Result<Option<Vec<Param>>, BuildFault>
        ensures { Takes OfParameters is_parameters (option_map (λ ps. map param_of ps.items))
            (values_of self.old) result (values_of self.new) }
    {
        match self.pop() {
            Some(Value::Parameters(parameters)) => Ok(parameters),
            other => misplaced(other),
        }
    }

    /// Takes the parameters of a declarator that has some, or none in its parentheses.
    pub(crate) fn given_parameters(&mut self) -> Result<Vec<Param>, BuildFault>
        ensures { Takes (λ ps. OfParameters (Some ps)) has_parameters
            (λ ps. map param_of ps.items) (values_of self.old) result (values_of self.new) }
    {
        match self.pop() {
            Some(Value::Parameters(Some(parameters))) => Ok(parameters),
            other => misplaced(other),
        }
    }

    /// Takes a declarator outside functions.
    pub(crate) fn top(&mut self) -> Result<Box<Top>, BuildFault>
        ensures { Takes OfTop is_top (λ t. top_of t.value)
            (values_of self.old) result (values_of self.new) }
    {
        match self.pop() {
            Some(Value::Top(top)) => Ok(top),
            other => misplaced(other),
        }
    }

    /// Takes declarators outside functions.
    pub(crate) fn tops(&mut self) -> Result<Stack<Top>, BuildFault>
        ensures { Takes OfTops is_tops (map top_of)
            (values_of self.old) result (values_of self.new) }
    {
        match self.pop() {
            Some(Value::Tops(tops)) => Ok(tops),
            other => misplaced(other),
        }
    }

    /// Takes a function or a declaration.
    pub(crate) fn external(&mut self) -> Result<Box<Decl>, BuildFault>
        ensures { Takes OfExternal is_external (λ d. decl_of d.value)
            (values_of self.old) result (values_of self.new) }
    {
        match self.pop() {
            Some(Value::External(external)) => Ok(external),
            other => misplaced(other),
        }
    }

    /// Takes a text.
    pub(crate) fn text(&mut self) -> Result<Stack<Decl>, BuildFault>
        ensures { Takes OfUnit is_text (map decl_of)
            (values_of self.old) result (values_of self.new) }
    {
        match self.pop() {
            Some(Value::Text(text)) => Ok(text),
            other => misplaced(other),
        }
    }
}
