//! The rules of the rewriting passes, and their names.

ghost use Rattle.std.specs.Prelude.{◌≡◌, find};
ghost use Rattle.std.specs.Str.{bytes_eq};
ghost use Rattle.qv_words.specs.Rules.{name_of_rule, rule_named};

/// A rule by which a pass rewrites the applications of formulas.
#[derive(Clone, Copy, Debug, PartialEq, Eq)]
pub enum Rule {
    Fold,
    Same,
    NotNot,
    Unit,
    Absorb,
    IteKnown,
    IteSame,
    AddZero,
    MulOne,
    MulZero,
}

/// All rules, in the order in which passes apply them.
pub const RULES: [Rule; 10] = [
    Rule::Fold,
    Rule::Same,
    Rule::NotNot,
    Rule::Unit,
    Rule::Absorb,
    Rule::IteKnown,
    Rule::IteSame,
    Rule::AddZero,
    Rule::MulOne,
    Rule::MulZero,
];

/// The name of a rule.
pub fn name_of_rule(rule: Rule) -> &'static [u8]
    ensures { result.now ≡ name_of_rule rule }
{
    match rule {
        Rule::Fold => b"fold",
        Rule::Same => b"same",
        Rule::NotNot => b"not-not",
        Rule::Unit => b"unit",
        Rule::Absorb => b"absorb",
        Rule::IteKnown => b"ite-known",
        Rule::IteSame => b"ite-same",
        Rule::AddZero => b"add-zero",
        Rule::MulOne => b"mul-one",
        Rule::MulZero => b"mul-zero",
    }
}

/// The rule of a name, where one has it.
#[tactic(auto, unfolding(crate::specs::Rules::rule_named))]
pub fn rule_named(name: &[u8]) -> Option<Rule>
    ensures { result ≡ rule_named name.now }
{
    first_rule(&RULES, name)
}

// The first of the rules that has the name.
fn first_rule(rules: &[Rule], name: &[u8]) -> Option<Rule>
    ensures { result ≡ find (λ r. bytes_eq (name_of_rule r) name.now) rules.now }
{
    rules
        .iter()
        .copied()
        .find(|rule| name_of_rule(*rule) == name)
}
