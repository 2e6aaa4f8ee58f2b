//! The two players.

ghost use Rattle.std.specs.Prelude.{◌≡◌};
ghost use Rattle.qv_words.specs.Linked.{same_quantifier};
ghost use Rattle.qv_words.specs.Problem.{other};
ghost use Rattle.qv_store.specs.Problems.{quantifier_of};

use qv_store::Quant;

/// The other player.
pub fn opponent(player: Quant) -> Quant
    ensures { quantifier_of result ≡ other (quantifier_of player) }
{
    match player {
        Quant::Exists => Quant::Forall,
        Quant::Forall => Quant::Exists,
    }
}

/// Whether they are one player.
pub fn is_same(a: Quant, b: Quant) -> bool
    ensures { result ≡ same_quantifier (quantifier_of a) (quantifier_of b) }
{
    a == b
}
