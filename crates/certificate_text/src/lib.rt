//! The texts of certificates, both ways.
#![tactic(auto)]

mod certificate;
mod certificate_reading;
mod function_reading;
mod function_texts;
mod index;
mod scanning;
mod text_parts;
mod texts;
mod writing;

pub use certificate::{Certificate, Version};
pub use certificate_reading::certificate_at;
pub use function_reading::function_at;
pub use function_texts::{FunCert, read_function};
pub use index::{CertIndex, FunEntry};
pub use scanning::scan;
pub use texts::{read, read_tree};
pub use writing::write;
