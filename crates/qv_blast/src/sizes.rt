//! How many clauses and literals circuits have.

ghost use Rattle.std.specs.Prelude.{◌≡◌, ◌≤◌, ◌+◌, ◌*◌, ◌-◌};
ghost use Rattle.qv_words.specs.Routine.{stage_count};
ghost use Rattle.qv_blast.specs.Sizes.{bit_count};

use qv_circuits::stage_count;
use qv_words::Op;

/// How many clauses there are, and how many literals they have in all.
#[derive(Clone, Copy)]
pub struct Size {
    pub clauses: usize,
    pub lits: usize,
}

// Those of one gate, as `Encoder` writes them: a conjunction, an exclusive or, which has as many as
// a choice, a majority; and those of a full adder, which has two of the second and one of the third.
const NONE: Size = Size {
    clauses: 0,
    lits: 0,
};

const AND: Size = Size {
    clauses: 3,
    lits: 7,
};

const XOR: Size = Size {
    clauses: 4,
    lits: 12,
};

const MAJ: Size = Size {
    clauses: 6,
    lits: 18,
};

const ADDER: Size = Size {
    clauses: 14,
    lits: 42,
};

impl Size {
    fn times(self, count: usize) -> Size
        ensures clauses { result.clauses ≤ self.clauses * count }
        ensures lits { result.lits ≤ self.lits * count }
    {
        Size {
            clauses: self.clauses.saturating_mul(count),
            lits: self.lits.saturating_mul(count),
        }
    }

    fn plus(self, other: Size) -> Size
        ensures clauses { result.clauses ≤ self.clauses + other.clauses }
        ensures lits { result.lits ≤ self.lits + other.lits }
    {
        Size {
            clauses: self.clauses.saturating_add(other.clauses),
            lits: self.lits.saturating_add(other.lits),
        }
    }
}

/// Those of an operator's circuit, where its last argument has this width. They say how much room
/// is made before the circuit is written, and nothing else rests on them: each count is that of the
/// gates in the operator's definition, by its loops.
pub fn size_of(op: Op, width: usize) -> Size
    // No more room is asked for than that of 50 clauses of three literals for each bit of each row.
    ensures clauses { result.clauses ≤ 50 * bit_count op width }
    ensures lits { result.lits ≤ 150 * bit_count op width }
{
    match op {
        Op::And | Op::Or | Op::Implies | Op::BvAnd | Op::BvOr | Op::BvNand | Op::BvNor => {
            AND.times(width)
        }
        Op::Xor | Op::BvXor | Op::BvXnor | Op::Ite => XOR.times(width),
        Op::BvNeg | Op::BvAdd | Op::BvSub | Op::BvUaddo => ADDER.times(width),
        Op::BvMul => product(width),
        Op::BvUdiv | Op::BvUrem => quotient(width),
        Op::BvSdiv => signed(width).plus(XOR),
        Op::BvSrem => signed(width),
        Op::BvSmod => modulus(width),
        Op::BvShl | Op::BvLshr | Op::BvAshr => shift(width),
        _ => test(op, width),
    }
}

// Those of an operator that asks something of its arguments; the others have no gates.
fn test(op: Op, width: usize) -> Size
    ensures clauses { result.clauses ≤ 50 * bit_count op width }
    ensures lits { result.lits ≤ 150 * bit_count op width }
{
    match op {
        Op::Equal | Op::BvComp | Op::BvNego => equal(width),
        Op::BvUlt | Op::BvUle | Op::BvUgt | Op::BvUge | Op::BvUsubo => MAJ.times(width),
        Op::BvSlt | Op::BvSle | Op::BvSgt | Op::BvSge => MAJ.times(width),
        Op::BvSaddo | Op::BvSsubo => ADDER.times(width).plus(XOR.times(2)).plus(AND),
        Op::BvUmulo => product(width.saturating_mul(2)).plus(folded(width)),
        Op::BvSmulo => product(width.saturating_mul(2))
            .plus(XOR.times(width))
            .plus(folded(width)),
        Op::BvSdivo => equal(width).times(2).plus(AND),
        _ => NONE,
    }
}

// A literal with each of the others in turn.
fn folded(count: usize) -> Size
    ensures clauses { result.clauses ≤ 3 * count }
    ensures lits { result.lits ≤ 7 * count }
{
    AND.times(count.saturating_sub(1))
}

fn equal(width: usize) -> Size
    ensures clauses { result.clauses ≤ 7 * width }
    ensures lits { result.lits ≤ 19 * width }
{
    XOR.times(width).plus(folded(width))
}

// How many pairs of bits there are below the diagonal of a square.
fn pairs(width: usize) -> usize
    ensures { 2 * result ≤ width * width }
{
    width.saturating_mul(width.saturating_sub(1)) / 2
}

// A row of `width` conjunctions, and then rows of one less each, with as many adders.
fn product(width: usize) -> Size
    ensures clauses { 2 * result.clauses ≤ 17 * (width * width) + 6 * width }
    ensures lits { 2 * result.lits ≤ 49 * (width * width) + 14 * width }
{
    let below = pairs(width);
    AND.times(below.saturating_add(width))
        .plus(ADDER.times(below))
}

// At each bit a difference of one bit more, and a choice.
fn quotient(width: usize) -> Size
    ensures clauses { result.clauses ≤ 18 * (width * width) + 14 * width }
    ensures lits { result.lits ≤ 54 * (width * width) + 42 * width }
{
    ADDER
        .times(width.saturating_add(1))
        .plus(XOR.times(width))
        .times(width)
}

// Two magnitudes, their quotient, and its negation where the sign wants that.
fn signed(width: usize) -> Size
    ensures clauses { result.clauses ≤ 18 * (width * width) + 68 * width }
    ensures lits { result.lits ≤ 54 * (width * width) + 204 * width }
{
    let magnitude = ADDER.plus(XOR).times(width);
    magnitude.times(3).plus(quotient(width))
}

fn modulus(width: usize) -> Size
    ensures clauses { result.clauses ≤ 18 * (width * width) + 92 * width + 7 }
    ensures lits { result.lits ≤ 54 * (width * width) + 272 * width + 19 }
{
    let chosen = XOR.plus(AND).plus(AND.plus(ADDER).times(width));
    signed(width).plus(equal(width)).plus(chosen)
}

// As many choices as there are stages and one more, and the bits behind those of the stages.
fn shift(width: usize) -> Size
    ensures clauses { result.clauses ≤ 4 * (width * (stage_count width + 1)) + 3 * width }
    ensures lits { result.lits ≤ 12 * (width * (stage_count width + 1)) + 7 * width }
{
    let stages = stage_count(width);
    XOR.times(width)
        .times(stages.saturating_add(1))
        .plus(folded(width.saturating_sub(stages)))
}
