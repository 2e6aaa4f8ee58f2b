//! What is known of prenex problems, and of the steps by which a program makes them: each
//! function's contract is a law.

ghost use Rattle.qv_prenex_laws.specs.PrenexLaws.{ProblemsAreLawful, PrenexUnderConstants};
ghost use Rattle.qv_prenex_laws.specs.PrenexLaws.{PrenexTheorem};
ghost use Rattle.qv_prenex_laws.specs.FormLaws.{FormBoundsAgree, FormRule, SplitsShrink};
ghost use Rattle.qv_prenex_laws.specs.FormLaws.{ConjunctionForm, LengthsRule, ConjunctionLengths};
ghost use Rattle.qv_prenex_laws.specs.FormLaws.{PlacesCount, PlacesByLengths, JoinedTotal};
ghost use Rattle.qv_prenex_laws.specs.FormLaws.{QuantifierTotal};
ghost use Rattle.qv_prenex_laws.specs.RuleLaws.{PartsShrink, BlocksByRule, LengthsByRule};
ghost use Rattle.qv_prenex_laws.specs.RuleLaws.{MatrixByRule};
ghost use Rattle.qv_prenex_laws.specs.MatrixLaws.{MatrixRule, ConjunctionMatrix, ProblemMatrix};
ghost use Rattle.qv_prenex_laws.specs.MatrixLaws.{JoinedAdvances, QuantifierAdvances, PlacesStay};
ghost use Rattle.qv_prenex_laws.specs.MatrixLaws.{OnePass};

/// What is asserted has a lawful problem.
pub fn problems_are_lawful()
    ensures { ProblemsAreLawful }
{}

/// From given values of the constants the existential player wins exactly where every formula means
/// 1.
pub fn prenex_under_constants()
    ensures { PrenexUnderConstants }
{}

/// The problem of formulas holds exactly where they are true.
pub fn prenex_theorem()
    ensures { PrenexTheorem }
{}

/// Any two bounds of the recursion that are enough give one form.
pub fn form_bounds_agree()
    ensures { FormBoundsAgree }
{}

/// The form of a tree comes from those of smaller trees, without a bound.
pub fn form_rule()
    ensures { FormRule }
{}

/// Where a choice is split, its condition and the tree with either side put in are smaller than the
/// tree.
pub fn splits_shrink()
    ensures { SplitsShrink }
{}

/// The form of a conjunction is joined from the forms of its formulas, from left to right.
pub fn conjunction_form()
    ensures { ConjunctionForm }
{}

/// The lengths of the blocks of a form come from those of smaller trees.
pub fn lengths_rule()
    ensures { LengthsRule }
{}

/// Those of a conjunction come from those of its formulas.
pub fn conjunction_lengths()
    ensures { ConjunctionLengths }
{}

/// A problem has a place for each constant and for each variable of a block.
pub fn places_count()
    ensures { PlacesCount }
{}

/// The lengths of the blocks before a block say how many places stand before it.
pub fn places_by_lengths()
    ensures { PlacesByLengths }
{}

/// Joined forms have the variables of both.
pub fn joined_total()
    ensures { JoinedTotal }
{}

/// Under a quantifier a form has one variable more.
pub fn quantifier_total()
    ensures { QuantifierTotal }
{}

/// The matrix of a tree, with its variables at their places, is built from those of smaller trees.
pub fn matrix_rule()
    ensures { MatrixRule }
{}

/// The matrix of a conjunction is built from those of its formulas, from left to right.
pub fn conjunction_matrix()
    ensures { ConjunctionMatrix }
{}

/// The matrix of a problem is that of the conjunction, built from the first place behind the
/// constants.
pub fn problem_matrix()
    ensures { ProblemMatrix }
{}

/// Behind one form and then another the next levels are those behind both joined.
pub fn joined_advances()
    ensures { JoinedAdvances }
{}

/// Behind the body of a quantifier the next levels are those behind the quantified form.
pub fn quantifier_advances()
    ensures { QuantifierAdvances }
{}

/// Below a quantifier what stands for the variables that are bound outside are variables still.
pub fn places_stay()
    ensures { PlacesStay }
{}

/// At a formula without quantifiers one pass puts in places for constants and variables for
/// variables.
pub fn one_pass()
    ensures { OnePass }
{}

/// The parts that the rule of a tree names are smaller than the tree.
pub fn parts_shrink()
    ensures { PartsShrink }
{}

/// The blocks of a form come from those of the parts.
pub fn blocks_by_rule()
    ensures { BlocksByRule }
{}

/// So do their lengths.
pub fn lengths_by_rule()
    ensures { LengthsByRule }
{}

/// So does the matrix, with its variables at their places.
pub fn matrix_by_rule()
    ensures { MatrixByRule }
{}
