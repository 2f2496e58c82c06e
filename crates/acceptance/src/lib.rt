//! Which certificates are accepted: what a certificate has for each function, and its steps, each
//! decided by its kernel.
#![tactic(auto)]

mod calls;
mod certificate;
mod forms;
mod functions;
mod laws;
mod places;
mod steps;
mod units;

pub use calls::calls_lifted;
pub use certificate::{Step, Steps};
pub use forms::{are_results, gives_on_words, has_result};
pub use functions::check_function;
pub use laws::{unit_verdicts_decide, verdicts_decide};
pub use places::{Phase, Place, Refusal};
pub use steps::{check_equal, check_exceptions, check_heaps, check_locals, check_words};
pub use units::check_functions;
