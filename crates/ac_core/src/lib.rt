//! From C text to programs that are proved exact.
#![tactic(auto)]

mod answer;
mod certificates;
mod generation_laws;
mod limits;
mod programs;
mod tasks;
mod top;
mod trial;

pub use answers::Status;
pub use certificates::translate_unit;
pub use checking::{
    ListFault, Phase, Refused, check_certificate, check_text, final_text, final_unit, index_levels,
    levels_of,
};
pub use generation_laws::generated_texts_have_the_same_ends;
pub use top::autocorres;
