//! What the items of expressions are: names and tables of them, numbers, literals, sorts, and the
//! shapes of lists.
#![tactic(auto)]

mod inside;
mod literals;
mod named;
mod names;
mod prefixed;
mod shapes;
mod sorts;
mod table;
mod tokens;

pub use inside::{Naming, are_attributes, are_pairs, behind, binding, is_named, naming_of};
pub use literals::{digits_literal, indexed_literal};
pub use named::NamedIds;
pub use names::Names;
pub use shapes::{IndexedName, Shape, first_large, indexed_name, number_in, shape_of};
pub use sorts::{part, read_sort};
pub use table::NameTable;
pub use tokens::{keyword_in, name_in, text_of, unquoted};
