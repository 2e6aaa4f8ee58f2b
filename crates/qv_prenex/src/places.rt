//! The places of constants.

ghost use Rattle.std.specs.Prelude.{◌≡◌, ℕ, List, [], IfOk, map};
ghost use Rattle.qv_words.specs.declared.sort.Sort.{Sort};
ghost use Rattle.qv_words.specs.Problem.{in_order};
ghost use Rattle.qv_prenex.specs.Constants.{pair_of};

use crate::constants::Constant;
use qv_prenex_matrix::Names;
use qv_store::NoMemory;
use std::alloc::Global;

// Names with the constants alone, whose places are in the order of their indices.
pub(crate) fn names_of(alloc: Global, constants: &[Constant]) -> Result<Names, NoMemory>
    ensures constants { IfOk result (λ names. (cs : List (ℕ × Sort)) →
        map pair_of constants.now ≡ in_order cs →
        names.constants.keys ≡ map (λ c. c.index) constants.now) }
    ensures outer { IfOk result (λ names. names.outer.entries ≡ []) }
{
    let mut names = Names::new(alloc);
    'each: for constant in constants {
        names.constants.insert(constant.index)?;
    }
    Ok(names)
}

// The indices of constants.
pub(crate) fn indices_of(alloc: Global, constants: &[Constant]) -> Result<Vec<u64>, NoMemory>
    ensures { IfOk result (λ indices. indices.items ≡ map (λ c. c.index) constants.now) }
{
    let mut indices = Vec::with_capacity(alloc, constants.len())?;
    'each: for constant in constants {
        indices.push(constant.index)?;
    }
    Ok(indices)
}
