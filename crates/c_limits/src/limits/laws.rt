//! Laws of the limits, each the contract of a function that does nothing.

ghost use Rattle.std.specs.Prelude.{◌≡◌, ◌+◌, ℕ, Some, None, map, slice_get};
ghost use Rattle.c_limits.specs.declared.limits.Limit.TheVariants as limit;
ghost use Rattle.c_grammar.specs.Tree.{Exp, Items};
ghost use Rattle.c_limits.specs.CodeLevels.{first_on, in_items, nodes_of};
ghost use Rattle.c_limits.specs.Limits as limits;
ghost use Rattle.c_limits.specs.Limits.{first_limit};
ghost use Rattle.c_limits.specs.LimitsExamples.{balanced, declared_type, else_ifs, function_of, global, negation, sizeof, struct, sum};

/// Examples of the limits: a sum nests to the left, so its first operand is the deepest; the last operand of 129 nodes is the
/// one too many; each `if` in an `else` nests deeper, and so do its branches; and an array length in a `sizeof` is a part of that
/// expression, but one in a declaration is an expression of its own.
pub fn examples()
    ensures sum_of_32 { first_limit (global (sum 31)) ≡ None }
    ensures sum_of_33 { first_limit (global (sum 32)) ≡ Some (limit.Depth, 0) }
    ensures nodes_128 { first_limit (global (negation (balanced 0 6))) ≡ None }
    ensures nodes_129 { first_limit (global (negation (negation (balanced 0 6))))
        ≡ Some (limit.Nodes, 63) }
    ensures ifs_31 { first_limit (function_of (else_ifs 0 31)) ≡ None }
    ensures ifs_32 { first_limit (function_of (else_ifs 0 32)) ≡ Some (limit.Blocks, 63) }
    ensures length_in_sizeof { first_limit (global (sizeof (struct (sum 31))))
        ≡ Some (limit.Depth, 0) }
    ensures length_in_declaration { first_limit (declared_type (struct (sum 31))) ≡ None }
{}

/// An expression counts its nodes in preorder, and on each level the first of them.
#[tactic(auto, using(crate::proofs::LimitsLevels::nodes_in_preorder, crate::proofs::LimitsLevels::first_nodes))]
pub fn nodes_and_levels()
    ensures nodes { (e : Exp) → (limits.exp e).nodes ≡ map (λ node. node.1) (nodes_of 1 e) }
    ensures levels { (e : Exp) (k : ℕ) → slice_get (limits.exp e).depth k
        ≡ first_on (k + 1) (nodes_of 1 e) }
{}

/// The body of a function counts its statements and the declarators of its locals in preorder, and on each level the first
/// statement.
#[tactic(auto, using(crate::proofs::LimitsStatements::statements_in_preorder, crate::proofs::LimitsStatements::first_statements))]
pub fn statements_and_levels()
    ensures statements { (body : Items) → (limits.items body).statements ≡ map
        (λ statement. statement.1) (in_items 1 body) }
    ensures levels { (body : Items) (k : ℕ) → slice_get (limits.items body).blocks k
        ≡ first_on (k + 1) (in_items 1 body) }
{}
