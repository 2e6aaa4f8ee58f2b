//! The words that lines begin with, and the names of answers.

ghost use Rattle.std.specs.Prelude.{◌≡◌, find};
ghost use Rattle.std.specs.Str.{bytes_eq};
ghost use Rattle.qv_cert.specs.Grammar.{answer_named};
ghost use Rattle.qv_cert.specs.Reading.{keyword_text, keyword_named};

use qv_words::Answer;

/// A word that a line outside the refutation begins with.
#[derive(Clone, Copy)]
pub enum Keyword {
    Header,
    Check,
    Node,
    Skolem,
    Instance,
    Eigen,
    Rewrite,
    Lrat,
    End,
}

static KEYWORDS: [Keyword; 9] = [
    Keyword::Header,
    Keyword::Check,
    Keyword::Node,
    Keyword::Skolem,
    Keyword::Instance,
    Keyword::Eigen,
    Keyword::Rewrite,
    Keyword::Lrat,
    Keyword::End,
];

impl Keyword {
    /// The word itself.
    pub fn text(self) -> &'static [u8]
        ensures { result.now ≡ keyword_text self }
    {
        match self {
            Keyword::Header => b"qbv-cert",
            Keyword::Check => b"check",
            Keyword::Node => b"n",
            Keyword::Skolem => b"s",
            Keyword::Instance => b"i",
            Keyword::Eigen => b"e",
            Keyword::Rewrite => b"w",
            Keyword::Lrat => b"lrat",
            Keyword::End => b"end",
        }
    }

    /// The keyword that a word is.
    #[tactic(auto, unfolding(crate::specs::Reading::keyword_named))]
    pub fn named(word: &[u8]) -> Option<Keyword>
        ensures { result ≡ keyword_named word.now }
    {
        first_keyword(&KEYWORDS, word)
    }
}

// The first of the keywords that the word is.
fn first_keyword(keywords: &[Keyword], word: &[u8]) -> Option<Keyword>
    ensures { result ≡ find (λ k. bytes_eq word.now (keyword_text k)) keywords.now }
{
    keywords.iter().copied().find(|k| word == k.text())
}

/// The answer of a name.
pub fn answer_named(word: &[u8]) -> Option<Answer>
    ensures { result ≡ answer_named word.now }
{
    if word == b"sat".as_slice() {
        Some(Answer::Sat)
    } else if word == b"unsat".as_slice() {
        Some(Answer::Unsat)
    } else if word == b"unknown".as_slice() {
        Some(Answer::Unknown)
    } else {
        None
    }
}
