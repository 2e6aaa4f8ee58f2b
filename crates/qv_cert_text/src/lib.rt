//! Lines of certificates, as text.
#![tactic(auto)]

mod printing;

pub use printing::print_cert_line;
