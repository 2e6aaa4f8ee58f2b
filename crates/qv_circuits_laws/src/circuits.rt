//! What is known of gates, routines and the circuits of operators: each function's contract is a
//! law.

ghost use Rattle.qv_circuits_laws.specs.CircuitLaws.{ModelsAreEvaluations, CircuitsAreWellFormed};
ghost use Rattle.qv_circuits_laws.specs.CircuitLaws.{GatesHaveEvaluations, SumsAreSums};
ghost use Rattle.qv_circuits_laws.specs.CircuitLaws.{DifferencesSubtract, ChoicesChoose};
ghost use Rattle.qv_circuits_laws.specs.CircuitLaws.{ComparisonsCompare, ProductsMultiply};
ghost use Rattle.qv_circuits_laws.specs.CircuitLaws.{LeftShiftsShift, RightShiftsShift};
ghost use Rattle.qv_circuits_laws.specs.CircuitLaws.{SignedShiftsShift, DivisionsDivide};
ghost use Rattle.qv_circuits_laws.specs.CircuitLaws.{CircuitTheorem};
ghost use Rattle.qv_circuits_laws.specs.RoutineLaws.{RoutinesGoOn};

/// The models of the clauses of gates are the evaluations of the gates.
pub fn models_are_evaluations()
    ensures { ModelsAreEvaluations }
{}

/// An operator's circuit reads variables before its gates, and has a bit for each of the result's.
pub fn circuits_are_well_formed()
    ensures { CircuitsAreWellFormed }
{}

/// Gates that read earlier variables have an evaluation, whatever values those have.
pub fn gates_have_evaluations()
    ensures { GatesHaveEvaluations }
{}

/// Under an evaluation the routine of sums gives the sum of the numbers, and its carry what is left
/// over.
pub fn sums_are_sums()
    ensures { SumsAreSums }
{}

/// Under an evaluation the routine of differences gives the difference of the numbers.
pub fn differences_subtract()
    ensures { DifferencesSubtract }
{}

/// Under an evaluation the routine of choices gives the list that is chosen.
pub fn choices_choose()
    ensures { ChoicesChoose }
{}

/// Under an evaluation the routine of comparisons compares the numbers.
pub fn comparisons_compare()
    ensures { ComparisonsCompare }
{}

/// Under an evaluation the routine of products gives the product of the numbers.
pub fn products_multiply()
    ensures { ProductsMultiply }
{}

/// Under an evaluation the routine of shifts to the left shifts the number, with zeros from the
/// right.
pub fn left_shifts_shift()
    ensures { LeftShiftsShift }
{}

/// Under an evaluation the routine of shifts to the right, filled with zeros, shifts the number.
pub fn right_shifts_shift()
    ensures { RightShiftsShift }
{}

/// Under an evaluation the routine of shifts to the right, filled with the top bit, shifts the
/// signed number.
pub fn signed_shifts_shift()
    ensures { SignedShiftsShift }
{}

/// Under an evaluation the routine of divisions gives the quotient and the remainder of the
/// numbers, also where the second is 0.
pub fn divisions_divide()
    ensures { DivisionsDivide }
{}

/// At lists behind one another a routine is one circuit, and behind its gates another.
pub fn routines_go_on()
    ensures { RoutinesGoOn }
{}

/// Under each evaluation of its gates an operator's circuit has the operator's value.
pub fn circuits_compute()
    ensures { CircuitTheorem }
{}
