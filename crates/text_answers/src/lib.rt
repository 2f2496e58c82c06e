//! From a C text to what is answered to it.
#![tactic(auto)]

mod tasks;
mod texts;

pub use tasks::Task;
pub use texts::answer_text;
