//! Laws of calls.

ghost use Rattle.qv_shell_args.specs.Call.{PlainWordsCheck};

/// Two words that don't begin with `-` are a call of `check`, with the script and the certificate.
pub fn plain_words_are_files()
    ensures { PlainWordsCheck }
{}
