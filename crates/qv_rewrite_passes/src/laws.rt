//! What is known of passes: each function's contract is a law.

ghost use Rattle.qv_words.specs.PassLaws.{SumsKeepValues};
ghost use Rattle.qv_rewrite_passes.specs.PassLaws.{XorsKeepValues, SimpsKeepValues, PassesStandFor};

/// After the pass of sums each formula is sorted as before, over leaves that it had, and, under all
/// values, means what it meant.
pub fn sums_keep_values()
    ensures { SumsKeepValues }
{}

/// So is each formula after the pass of exclusive or.
pub fn xors_keep_values()
    ensures { XorsKeepValues }
{}

/// So is each formula after the pass of small rules.
pub fn simps_keep_values()
    ensures { SimpsKeepValues }
{}

/// So is each formula after any passes, one after the other.
pub fn passes_stand_for()
    ensures { PassesStandFor }
{}
