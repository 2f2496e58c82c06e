//! Indexes of certificates.

use crate::certificate::Version;
use expression_lang::Level;

/// What a certificate says of a function before its steps, and where its list stands in the certificate's text.
#[derive(Drop)]
pub struct FunEntry {
    pub name: String,
    pub level: Level,
    /// The offset of the list's first byte.
    pub start: u32,
    /// The offset behind its last byte.
    pub end: u32,
}

/// The index of a certificate, with its functions in their order.
#[derive(Drop)]
pub struct CertIndex {
    pub version: Version,
    pub functions: Vec<FunEntry>,
}
