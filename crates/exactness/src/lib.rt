//! When abstract programs are exact against C, and what a Hoare triple says of both: the statements
//! that the checkers prove. The crate has no code: what stands on it cites its definitions
//! (`specs/`).
#![tactic(auto)]
