//! Expressions over words, numbers, truth values and either heap: their sorts and their values.
#![tactic(auto)]

mod applications;
mod arity;
mod changing;
mod comparison;
mod copies;
mod distinct_names;
mod environments;
mod evaluation;
mod evaluator;
mod expression;
mod faults;
mod heads;
mod lists;
mod names;
mod operands;
mod operations;
pub mod parts;
mod paths;
mod scalars;
mod scene;
mod searching;
mod shape;
mod signatures;
mod sort;
pub mod sort_rules;
mod sorts;

pub use changing::Change;
pub use comparison::equal_types;
pub use distinct_names::{Named, are_binders_distinct, are_distinct, are_globals_distinct};
pub use environments::Env;
pub use evaluator::eval;
pub use expression::{CastOp, Exp};
pub use faults::EvalFault;
pub use heads::{IsLoad, IsName, IsPartOfValue, IsRead, IsReading, IsWordArithmetic};
pub use lists::{copy_exps, copy_names, same_exps, same_names};
pub use names::{Names, Scope};
pub use paths::Path;
pub use searching::Test;
pub use shape::{
    Front, Leaf, One, PathFront, PlaceHead, RootTest, Shape, Two, boxed, shape_of, whole,
    whole_leaf, whole_one, whole_place, whole_root, whole_two,
};
pub use signatures::{Binder, Signature};
pub use sort::{Kind, Level, Scalar, Sort, scalar_of_kind};
pub use sorts::{along, sort_of};
