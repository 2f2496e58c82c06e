//! Values, types and layouts of the C subset: what words, numbers, types, structs and their places in memory are.
#![tactic(auto)]

mod extents;
pub mod layout_laws;
mod layouts;
mod lone_arrays;
mod numbers;
mod offsets;
mod places;
mod placing;
mod program;
mod tabulation;
mod type_copies;
mod type_equality;
mod types;
mod value_copies;
mod value_equality;
mod values;
pub mod views;
pub mod word_laws;
mod word_operations;
mod words;
mod zero_values;

pub use layouts::{Layout, LayoutFault, StructDef, align_of, is_object, size_of};
pub use lone_arrays::{around, inside, lone_element};
pub use numbers::{Number, NumberOp, number_op};
pub use offsets::{offset_of, step_into};
pub use program::Program;
pub use type_copies::copy_of;
pub use types::{CType, IntType, Target, address_width, is_signed, width_of};
pub use value_copies::copy_value;
pub use value_equality::{same_number, same_truth};
pub use values::{GlobalVar, PathStep, Value};
pub use views::{fits, int, is_of_type, nat};
pub use word_operations::{
    ShiftOp, UnaryOp, WordOp, WordTest, cast, word_op, word_shift, word_test, word_unary,
};
pub use words::Word;
pub use zero_values::zeros;
