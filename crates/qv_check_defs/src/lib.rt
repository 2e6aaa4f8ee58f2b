//! A script as a certificate beside it meets it, and what their check comes to, as definitions.
#![tactic(auto)]
