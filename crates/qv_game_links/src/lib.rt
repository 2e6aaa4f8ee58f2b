//! Which links of a forced entry may be left out.
//!
//! A region is taken as statements (`statements`), which are all so where it is true: mostly that a
//! place has a value. A link isn't needed where its region says otherwise than the entry's, or
//! where what another link's region says is said by these two (`thin`).
#![tactic(auto)]

mod saying;
mod thinning;

pub use thinning::thin;
