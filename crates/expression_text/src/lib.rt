//! Texts of types and of expressions as trees, both ways.
#![tactic(auto)]

mod exp_reading;
mod exp_writing;
mod fault;
mod heads;
mod list_reading;
mod list_writing;
mod names;
mod numbering;
mod numbers;
mod parts;
mod path_reading;
mod rows;
mod shape_heads;
mod texts;
mod type_reading;
mod type_writing;
mod words;

pub use exp_reading::exp_at;
pub use exp_writing::{exp_into, path_into};
pub use fault::TextFault;
pub use heads::Head;
pub use list_reading::{exps_at, names_at, new_name_at};
pub use list_writing::{exps_into, names_into};
pub use names::{is_name, name_at};
pub use numbering::next;
pub use numbers::{number_at, width_at};
pub use parts::{begin_list, natural_into, number_into};
pub use path_reading::path_at;
pub use shape_heads::{one_head, place_head, root_head, two_head};
pub use texts::{read_exp, write_exp};
pub use type_reading::type_at;
pub use type_writing::type_into;
pub use words::int_type_word;
