//! Sorts: what kind of value a term has.

ghost use Rattle.std.specs.Prelude.{◌≡◌, ◌≤◌, ◌↔◌, IsSome, IfSome};

/// What kind of value a term has: a truth value, or a bit-vector of a width from 1 to 128.
#[derive(Clone, Copy, Debug, PartialEq, Eq, Hash)]
pub enum Sort {
    Bool,
    Bits(u8),
}

impl Sort {
    ghost use Rattle.qv_words.specs.Sort.{width_of, IsLawful};

    /// The sort of bit-vectors of this width, or nothing where the width isn't from 1 to 128.
    pub fn bits(width: u128) -> Option<Sort>
        ensures lawful { IsSome result ↔ ((1 ≤ width) × (width ≤ 128)) }
        ensures sort { IfSome result (λ sort. sort ≡ Sort.Bits width) }
    {
        match width {
            1..=128 => Some(Sort::Bits(width as u8)),
            _ => None,
        }
    }

    /// How many bits a value has: 1 of a truth value.
    pub fn width(self) -> u8
        ensures { result ≡ width_of self }
    {
        match self {
            Sort::Bool => 1,
            Sort::Bits(width) => width,
        }
    }
}
