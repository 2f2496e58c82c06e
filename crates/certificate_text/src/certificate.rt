//! Certificates.

use acceptance::Steps;
use c_values::Target;

/// The version of a certificate's text.
#[derive(Clone, Copy, Debug, PartialEq, Eq)]
pub enum Version {
    /// The first, which is for ILP32.
    One,
    /// The second, which names its target.
    Two(Target),
}

/// A certificate: what each function's program becomes, step by step, and by which rules.
pub struct Certificate {
    pub version: Version,
    pub functions: Vec<Steps>,
}

impl Drop for Certificate {
    fn drop(self) {
        let Certificate {
            version: _,
            functions: _functions,
        } = self;
    }
}
