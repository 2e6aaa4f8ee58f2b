//! The commands that speak of no terms, over what a script holds. Each is called with the items at
//! which its arguments begin.
#![tactic(auto)]

mod options;
mod simple;

pub use options::{get_option, set_option};
pub use simple::{
    check_sat, declare_const, declare_fun, define_sort, echo, exit, get_info, get_model,
    get_unsat_assumptions, get_unsat_core, pop, push, reset, reset_assertions, set_info, set_logic,
};
