//! Which assertions follow from facts: a table of rules, that what they show holds, and the checker
//! that decides whether a tree of rules shows an assertion.
#![tactic(auto)]

mod claim;
mod coefficients;
mod computing;
mod inequalities;
mod instances;
mod kernel;
mod lengthening;
mod linear;
mod ranges;
mod rewriting;
mod sides;
mod site;
mod stepping;
mod sums;
mod verdicts;

pub use claim::Claim;
pub use instances::is_assertion;
pub use kernel::checked;
pub use site::Site;
pub use verdicts::entails;
