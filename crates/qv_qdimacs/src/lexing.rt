//! The words of a text, by where they stand.

ghost use Rattle.std.specs.Prelude.{◌≡◌, ◌≤◌, ◌+◌, [], length, drop, MatchOption};
ghost use Rattle.std.specs.List.{prefix_len, position_or_len};
ghost use Rattle.qv_dimacs.specs.Text.{is_white};
ghost use Rattle.qv_dimacs.specs.Clauses.{no_comments};
ghost use Rattle.qv_qdimacs.specs.Ahead.{is_gap, is_lf, lines_at, line_at, lines_behind, words_at};
ghost use Rattle.qv_qdimacs.specs.Ahead.{IsNextInLine, IsFirst, IsNext, IsNextLine};

/// Where a word stands in a text.
#[derive(Clone, Copy)]
pub(crate) struct Span {
    pub(crate) begin: usize,
    pub(crate) end: usize,
}

// Whether the byte is white space within a line.
#[tactic(auto, unfolding(qv_dimacs::specs::Text::is_white))]
#[inline]
fn is_gap(byte: u8) -> bool
    ensures { result ≡ is_gap byte }
{
    byte == b' ' || byte == b'\t' || byte == b'\r'
}

// Whether the byte is white space.
#[tactic(auto, unfolding(qv_dimacs::specs::Text::is_white))]
#[inline]
fn is_white(byte: u8) -> bool
    ensures { result ≡ is_white byte }
{
    byte == b'\n' || byte == b' ' || byte == b'\t' || byte == b'\r'
}

// Where the white space ends that a place of a line begins with.
#[inline]
fn gap_end(text: &[u8], at: usize) -> usize
    requires { at ≤ length text.now }
    ensures end { result ≡ at + prefix_len is_gap (drop at text.now) }
    ensures within { result ≤ length text.now }
{
    let mut i = at;
    'bytes: while i < text.len() {
        if !is_gap(text[i]) {
            return i;
        }
        i += 1;
    }
    i
}

// Where the word ends that stands at a place.
#[inline]
fn word_end(text: &[u8], at: usize) -> usize
    requires { at ≤ length text.now }
    ensures end { result ≡ at + position_or_len is_white (drop at text.now) }
    ensures within { result ≤ length text.now }
{
    let mut i = at;
    'bytes: while i < text.len() {
        if is_white(text[i]) {
            return i;
        }
        i += 1;
    }
    i
}

// Where the line ends in which a place lies.
#[inline]
fn line_end(text: &[u8], at: usize) -> usize
    requires { at ≤ length text.now }
    ensures end { result ≡ at + position_or_len is_lf (drop at text.now) }
    ensures within { result ≤ length text.now }
{
    let mut i = at;
    'bytes: while i < text.len() {
        if text[i] == b'\n' {
            return i;
        }
        i += 1;
    }
    i
}

/// The next word of the line in which a place lies.
#[inline]
pub(crate) fn next_in_line(text: &[u8], at: usize) -> Option<Span>
    requires { at ≤ length text.now }
    ensures { MatchOption result (line_at text.now at ≡ []) (λ span.
        IsNextInLine text.now at span) }
{
    let begin = gap_end(text, at);
    let end = word_end(text, begin);
    if begin == end {
        return None;
    }
    Some(Span { begin, end })
}

// Where the next line begins.
fn next_line(text: &[u8], at: usize) -> Option<usize>
    requires { at ≤ length text.now }
    ensures { MatchOption result (lines_behind text.now at ≡ []) (λ next.
        IsNextLine text.now at next) }
{
    let end = line_end(text, at);
    if end == text.len() {
        return None;
    }
    Some(end + 1)
}

/// The first word of the first line that is no comment, in the lines from the begin of one on.
pub(crate) fn first_word(text: &[u8], at: usize) -> Option<Span>
    requires { at ≤ length text.now }
    ensures { MatchOption result (no_comments (lines_at text.now at) ≡ []) (λ span.
        IsFirst text.now at span) }
{
    let mut line = at;
    'lines: loop {
        if let Some(word) = next_in_line(text, line) {
            if text[word.begin] != b'c' {
                return Some(word);
            }
        }
        match next_line(text, line) {
            Some(next) => line = next,
            None => return None,
        }
    }
}

/// The next word that stands in no comment.
#[inline]
pub(crate) fn next_word(text: &[u8], at: usize) -> Option<Span>
    requires { at ≤ length text.now }
    ensures { MatchOption result (words_at text.now at ≡ []) (λ span.
        IsNext text.now at span) }
{
    if let Some(word) = next_in_line(text, at) {
        return Some(word);
    }
    first_word(text, next_line(text, at)?)
}
