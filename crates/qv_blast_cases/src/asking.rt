//! Whether a circuit may be asked for.

ghost use Rattle.std.specs.Prelude.{◌≤◌, ◌+◌, ◌^◌, IsTrue, All, map};
ghost use Rattle.qv_words.specs.Sort.{IsLawful};
ghost use Rattle.qv_circuits.specs.Adding.{lits_of};
ghost use Rattle.qv_circuits.specs.Fitting.{FitsRank};
ghost use Rattle.qv_blast_cases.specs.Arguments.{HaveWidths};

use qv_cnf::Lit;
use qv_words::{Op, Sort, result_sort};

/// Whether this may be the next variable under a limit.
pub fn is_next(next: u32, limit: u32) -> bool
    ensures most { IsTrue result → limit ≤ 2 ^ 30 }
    ensures some { IsTrue result → 1 ≤ next }
    ensures within { IsTrue result → next ≤ limit + 1 }
{
    limit <= Lit::MAX_VARIABLE && next >= 1 && next <= limit + 1
}

/// Whether these are bits of arguments of these sorts, at which the operator has a rank.
pub fn fits(op: Op, sorts: &[Sort], args: &[&[Lit]]) -> bool
    requires { All IsLawful sorts.now }
    ensures { IsTrue result → FitsRank op (map (λ v. lits_of v.now) args.now) }
{
    result_sort(op, sorts).is_some() && have_widths(args, sorts)
}

// Whether there are as many literals for each argument as its sort has bits.
fn have_widths(args: &[&[Lit]], sorts: &[Sort]) -> bool
    ensures { IsTrue result → HaveWidths (map (λ v. lits_of v.now) args.now) sorts.now }
{
    if args.len() != sorts.len() {
        return false;
    }
    'places: for place in 0..args.len() {
        if args[place].len() != sorts[place].width() as usize {
            return false;
        }
    }
    true
}
