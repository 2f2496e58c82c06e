//! What is declared at a place of the text.

ghost use Rattle.std.specs.Prelude.{◌≡◌, string_bytes, Some, OnOk};
ghost use Rattle.c_values.specs.Name.{with_name};
ghost use Rattle.std.specs.Option.{option_map};
ghost use Rattle.typing_rules.specs.Scope.{Hidden};
ghost use Rattle.typing_scope.specs.CodeScope.{entity_of, names_of};

use crate::file::File;
use c_values::{CType, Layout, Number, Target};
use std::alloc::{AllocError, Global};
use std::collections::{HashMap, HashSet};
use typing_rules::progress::Progress;

/// What a tag belongs to.
#[derive(Clone, Copy, Debug, PartialEq, Eq)]
pub enum Tag {
    /// A struct, by the first mention.
    Struct,
    /// An enum, by its body.
    Enum,
}

/// What an ordinary name stands for.
#[derive(Debug, Drop)]
pub enum Entity {
    Enumerator(Number),
    Global(CType),
    /// The result, none where it is void, and the parameters.
    Function(Option<CType>, Vec<CType>),
    /// A name of its own in the function, and the type.
    Local(String, CType),
    /// A local that may not be named here: in its own initialiser, or in another group of its switch.
    Hidden,
}

/// What is declared at a place of the text.
#[derive(Debug, Drop)]
pub struct Scope {
    /// The target, and the structs that are complete, in the order of their completion.
    pub layout: Layout,
    pub tags: HashMap<String, Tag>,
    /// How many structs without a name there were.
    pub unnamed: u64,
    pub typedefs: HashMap<String, CType>,
    /// The names of each block, the file's first, the innermost last.
    pub blocks: Vec<HashMap<String, Entity>>,
    pub file: File,
    /// Of the function that the text is in.
    pub progress: Progress,
    /// Whether a conversion to a pointer to a type that isn't void stood where only a value is left.
    pub folds_cast: bool,
}

impl Scope {
    ghost use Rattle.std.specs.Prelude.{◌≡◌, string_bytes, IfOk, OnOk};
    ghost use Rattle.std.specs.HashSet.{contains_text};
    ghost use Rattle.std.specs.Option.{option_copied, option_map};
    ghost use Rattle.c_values.specs.CodeTypes.{target_of};
    ghost use Rattle.typing_rules.specs.Expressions as expressions;
    ghost use Rattle.typing_rules.specs.Scope.{closed, declare, entity, hide_locals, is_declared_here, opened};
    ghost use Rattle.typing_scope.specs.CodeScope.{entity_of, scope_of};
    ghost use Rattle.typing_scope.specs.CodeInFront.{in_front};

    /// In front of a text with these functions that have a body.
    pub fn of_file(
        alloc: Global,
        target: Target,
        with_body: HashSet<String>,
    ) -> Result<Scope, AllocError>
        ensures { IfOk result
            (λ scope. scope_of scope ≡ in_front (target_of target)
            (λ x. contains_text with_body x)) }
    {
        // a layout without structs needs memory alone
        let Ok(layout) = Layout::build(target, Vec::new(alloc)) else {
            return Err(AllocError);
        };
        let mut blocks = Vec::new(alloc);
        blocks.push(HashMap::new(alloc))?;
        Ok(Scope {
            layout,
            tags: HashMap::new(alloc),
            unnamed: 0,
            typedefs: HashMap::new(alloc),
            blocks,
            file: File::at_beginning(alloc, with_body),
            progress: Progress::at_start(alloc, Vec::new(alloc)),
            folds_cast: false,
        })
    }

    /// What a name stands for: the innermost.
    #[tactic(auto, using(crate::proofs::Blocks::blocks_behind))]
    pub fn entity(&self, name: &str) -> Option<&Entity>
        ensures { option_map entity_of (option_copied result)
            ≡ entity (scope_of self.now).blocks name.now }
    {
        let mut blocks = self.blocks.as_slice();
        while let Some((names, outer)) = blocks.split_last() {
            if let Some(entity) = names.get(name) {
                return Some(entity);
            }
            blocks = outer;
        }
        None
    }

    /// Whether the innermost block has the name.
    #[tactic(auto, using(crate::proofs::Blocks::blocks_behind))]
    pub fn is_declared_here(&self, name: &str) -> bool
        ensures { result ≡ is_declared_here (scope_of self.now).blocks name.now }
    {
        match self.blocks.as_slice().split_last() {
            Some((names, _)) => names.contains_key(name),
            None => false,
        }
    }

    /// Declares a name in the innermost block.
    #[tactic(auto, using(crate::proofs::Blocks::blocks_behind))]
    pub fn declare(&mut self, name: String, entity: Entity) -> Result<(), AllocError>
        ensures { OnOk result (scope_of self.new ≡ declare (string_bytes name) (entity_of entity)
            (scope_of self.old)) }
    {
        if let Some(mut names) = self.blocks.pop() {
            name_in(&mut names, name, entity)?;
            self.blocks.push(names)?;
        }
        Ok(())
    }

    /// Of what only a value is left, a conversion is noted.
    pub fn note(&mut self, has_cast: bool)
        ensures { scope_of self.new ≡ expressions.note has_cast (scope_of self.old) }
    {
        self.folds_cast = self.folds_cast || has_cast;
    }

    /// Begins a block.
    #[tactic(auto, using(crate::proofs::Blocks::blocks_behind))]
    pub fn open_block(&mut self, alloc: Global) -> Result<(), AllocError>
        ensures { OnOk result (scope_of self.new ≡ opened (scope_of self.old)) }
    {
        self.blocks.push(HashMap::new(alloc))?;
        Ok(())
    }

    /// Ends the innermost block.
    #[tactic(auto, using(crate::proofs::Blocks::blocks_behind))]
    pub fn close_block(&mut self)
        ensures { scope_of self.new ≡ closed (scope_of self.old) }
    {
        let _ = self.blocks.pop();
    }

    /// What the innermost block has declared isn't to be named any more, but still has its name.
    #[tactic(auto, using(crate::proofs::Blocks::blocks_behind))]
    pub fn hide_locals(&mut self)
        ensures { scope_of self.new ≡ hide_locals (scope_of self.old) }
    {
        if let Some(names) = self.blocks.last_mut() {
            hide_all(names);
        }
    }
}

// Lets a name stand for something, in place of what it stood for.
fn name_in(
    names: &mut HashMap<String, Entity>,
    name: String,
    entity: Entity,
) -> Result<(), AllocError>
    ensures { OnOk result
        (names_of names.new ≡ with_name (string_bytes name) (Some (entity_of entity))
        (names_of names.old)) }
{
    let _ = names.insert(name, entity)?;
    Ok(())
}

// Hides what the names stand for, and keeps the names.
fn hide_all(names: &mut HashMap<String, Entity>)
    ensures { names_of names.new ≡ λ x. option_map (λ e. Hidden) (names_of names.old x) }
{
    names.retain(|_, entity| {
        *entity = Entity::Hidden;
        true
    });
}
