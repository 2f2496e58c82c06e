//! The members of a struct so far.

use crate::declarators::{Declared, is_incomplete, is_large};
use c_values::{CType, Layout};
use indexmap::IndexMap;
use std::alloc::{AllocError, Global};
use typing_rules::fault::TypeKind;
use typing_rules::rulings::{Refusal, refuse};
use typing_rules::types::points_to_array;

/// The members of a struct so far, in their order.
#[derive(Debug, Drop)]
pub struct Fields {
    pub members: IndexMap<String, CType>,
}

impl Fields {
    ghost use Rattle.std.specs.Prelude.{◌≡◌, [], ◌∷◌, ◌++◌, map, false, string_bytes, IfOk};
    ghost use Rattle.c_values.specs.CodeLayout.{member_of};
    ghost use Rattle.c_values.specs.CodeTypes.{type_of};
    ghost use Rattle.c_values.specs.Name.{is_among};
    ghost use Rattle.typing_rules.specs.CodeAnswers.{RulesAs};
    ghost use Rattle.typing_scope.specs.CodeDeclared.{declared_of};
    ghost use Rattle.typing_scope.specs.CodeFields.{members_of};
    ghost use Rattle.typing_rules.specs.Declarations as declarations;

    /// None yet.
    pub fn none(alloc: Global) -> Fields
        ensures { members_of result ≡ [] }
    {
        Fields {
            members: IndexMap::new(alloc),
        }
    }

    /// The members.
    pub fn into_members(self, alloc: Global) -> Result<Vec<(String, CType)>, AllocError>
        ensures { IfOk result (λ ms. map member_of ms.items ≡ members_of self) }
    {
        let Fields { members } = self;
        members.into_iter().collect(alloc)
    }

    /// One member more: its name is new, and it is an object.
    pub fn join(self, l: &Layout, member: Declared) -> Result<Fields, Refusal>
        ensures { RulesAs members_of result
            (declarations.joined l.now (members_of self) (declared_of member)) }
    {
        let Declared { at: _, name, ty } = member;
        refuse(self.has(name.as_str()), TypeKind::Twice)?;
        refuse(is_incomplete(l, &ty), TypeKind::Incomplete)?;
        refuse(points_to_array(&ty), TypeKind::OutOfSubset)?;
        refuse(is_large(l, &ty), TypeKind::Large)?;
        Ok(self.with(name, ty)?)
    }

    // Whether there is a member of the name.
    fn has(&self, name: &str) -> bool
        ensures { result ≡ is_among name.now (declarations.member_names (members_of self.now)) }
    {
        self.members.contains_key(name)
    }

    // A member behind the others.
    fn with(mut self, name: String, ty: CType) -> Result<Fields, AllocError>
        requires { is_among (string_bytes name) (declarations.member_names (members_of self))
            ≡ false }
        ensures { IfOk result (λ fs. members_of fs
            ≡ members_of self ++ (record { name = string_bytes name; type = type_of ty } ∷ [])) }
    {
        let _ = self.members.insert(name, ty)?;
        Ok(self)
    }
}
