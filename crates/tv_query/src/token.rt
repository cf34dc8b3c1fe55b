//! The tokens of a query's text.

ghost use Rattle.std.specs.Prelude.{◌≡◌, ◌≢◌, ◌==◌, ◌<◌, ◌≤◌, ◌++◌, ◌∷◌, [], ℕ, List, length, false, slice_index, true, IfErr, IfOk, MatchBool, MatchOption};
ghost use Rattle.std.specs.Char.{is_ascii_whitespace};
ghost use Rattle.tv_query.specs.Refusals.{IsUnquoted, RefusesToken, RefusesWanted};
ghost use Rattle.tv_query.specs.Tokens.{BeginsWithPath, BeginsWithToken, BeginsWithWanted, BeginsWithQuote, BeginsWithout, IsOperator, IsQuoted, IsUpTo};
ghost use Rattle.tv_query.specs.Tokens.{QueryToken, ends_word, is_quote, opens_range, star, stops_at, token_of, wanted_text};
ghost use Rattle.tv_query.specs.declared.query_error.QueryReason.TheVariants.{Unended};

use crate::query_error::QueryReason;

/// What is wanted at a path.
#[derive(Clone, Copy)]
pub enum Wanted<'q> {
    /// The terms of a text.
    Text(&'q str),
    /// The terms that begin with that of a text.
    Prefix(&'q str),
    /// The terms in a range, as `ranges_of_text` reads it.
    Range(&'q str),
}

/// A token of a query's text.
#[derive(Clone, Copy)]
pub enum Token<'q> {
    /// `(`.
    Open,
    /// `)`.
    Close,
    /// `AND`.
    And,
    /// `OR`.
    Or,
    /// `NOT`.
    Not,
    /// A path, and what is wanted there.
    Clause {
        /// The path.
        path: &'q str,
        /// What is wanted there.
        wanted: Wanted<'q>,
    },
}

/// Where a part of a token ends.
#[derive(Clone, Copy)]
pub enum Stop {
    /// A bare path: before white space, a parenthesis, a quote or a colon.
    Path,
    /// A bare word after the colon: before white space, a parenthesis or a quote.
    Word,
    /// Before `'`.
    SingleQuote,
    /// Before `"`.
    DoubleQuote,
    /// Before `]` or `}`.
    Bracket,
}

// Whether a bare word ends before this byte.
fn ends_word(byte: u8) -> bool
    ensures { result ≡ ends_word byte }
{
    byte.is_ascii_whitespace() || matches!(byte, b'(' | b')' | b'"' | b'\'')
}

impl Stop {
    // Whether a part ends before this byte.
    fn stops_at(self, byte: u8) -> bool
        ensures { result ≡ stops_at self byte }
    {
        match self {
            Stop::Path => ends_word(byte) || byte == b':',
            Stop::Word => ends_word(byte),
            Stop::SingleQuote => byte == b'\'',
            Stop::DoubleQuote => byte == b'"',
            Stop::Bracket => byte == b']' || byte == b'}',
        }
    }

    // The length of the part with which the bytes begin.
    fn len_within(self, bytes: &[u8]) -> usize
        ensures within { result ≤ length bytes.now }
        ensures before { (k : ℕ) → k < result → stops_at self (slice_index bytes.now k) ≡ false }
        ensures ended { result < length bytes.now
            → stops_at self (slice_index bytes.now result) ≡ true }
    {
        for (place, byte) in bytes.iter().enumerate() {
            if self.stops_at(*byte) {
                return place;
            }
        }
        bytes.len()
    }

    // The part with which the text begins, and the rest.
    fn split(self, text: &str) -> (&str, &str)
        ensures { IsUpTo (stops_at self) text.now result.0.now result.1.now }
    {
        text.split_at(self.len_within(text.as_bytes()))
    }
}

// The text after its first byte, which is ASCII.
fn after_first(text: &str) -> &str
    requires { slice_index text.now 0 < 128 }
    ensures { text.now ≢ [] → text.now ≡ slice_index text.now 0 ∷ result.now }
{
    if text.is_empty() {
        return text;
    }
    let (_, rest) = text.split_at(1);
    rest
}

// The text after this byte, which is ASCII, if it begins with that.
fn after_byte(text: &str, byte: u8) -> Option<&str>
    requires { byte < 128 }
    ensures { MatchOption result (BeginsWithout (λ b. b == byte) text.now)
        (λ rest. text.now ≡ byte ∷ rest.now) }
{
    match text.as_bytes().first() {
        Some(first) if *first == byte => Some(after_first(text)),
        _ => None,
    }
}

// Where a text in quotes ends that begins with this quote, if the text begins with one.
fn quote_of(text: &str) -> Option<Stop>
    ensures { MatchOption result (BeginsWithout is_quote text.now) (BeginsWithQuote text.now) }
{
    match text.as_bytes().first() {
        Some(b'"') => Some(Stop::DoubleQuote),
        Some(b'\'') => Some(Stop::SingleQuote),
        _ => None,
    }
}

// The text in quotes with which the text begins, and the rest; `None` where it begins with no quote. The only error is `Unended`.
fn quoted(text: &str) -> Result<Option<(&str, &str)>, QueryReason>
    ensures found { IfOk result (λ found. MatchOption found (BeginsWithout is_quote text.now)
        (λ parts. IsQuoted text.now parts.0.now parts.1.now)) }
    ensures refused { IfErr result (λ e. (e ≡ Unended) × IsUnquoted text.now) }
{
    let Some(quote) = quote_of(text) else {
        return Ok(None);
    };
    let (inner, rest) = quote.split(after_first(text));
    if rest.is_empty() {
        return Err(QueryReason::Unended);
    }
    Ok(Some((inner, after_first(rest))))
}

// The range in brackets with which the text begins, and the rest. The only error is `Unended`.
fn bracketed(text: &str) -> Result<(Wanted<'_>, &str), QueryReason>
    requires { opens_range (slice_index text.now 0) ≡ true }
    ensures found { IfOk result
        (λ found. BeginsWithWanted text.now (wanted_text found.0) found.1.now) }
    ensures refused { IfErr result (RefusesWanted text.now) }
{
    let (front, rest) = Stop::Bracket.split(text);
    if rest.is_empty() {
        return Err(QueryReason::Unended);
    }
    let (range, rest) = text.split_at(front.len() + 1);
    Ok((Wanted::Range(range), rest))
}

// The word without the star at its end, if it has one.
fn before_star(word: &str) -> Option<&str>
    ensures { MatchOption result ((inner : List ℕ) → word.now ≢ inner ++ star)
        (λ inner. word.now ≡ inner.now ++ star) }
{
    match word.as_bytes().split_last() {
        Some((b'*', front)) => {
            let (inner, _) = word.split_at(front.len());
            Some(inner)
        }
        _ => None,
    }
}

// What the bare word means with which the text begins, and the rest. It begins with no quote and no bracket. The only error is `NoText`.
fn bare(text: &str) -> Result<(Wanted<'_>, &str), QueryReason>
    requires no_quote { BeginsWithout is_quote text.now }
    requires no_bracket { BeginsWithout opens_range text.now }
    ensures found { IfOk result
        (λ found. BeginsWithWanted text.now (wanted_text found.0) found.1.now) }
    ensures refused { IfErr result (RefusesWanted text.now) }
{
    let (word, rest) = Stop::Word.split(text);
    if word.is_empty() {
        return Err(QueryReason::NoText);
    }
    if word == "*" {
        return Ok((Wanted::Range(word), rest));
    }
    match before_star(word) {
        Some(inner) => Ok((Wanted::Prefix(inner), rest)),
        None => Ok((Wanted::Text(word), rest)),
    }
}

// Whether the text begins with a bracket that opens a range.
fn opens_range(text: &str) -> bool
    ensures { MatchBool result (opens_range (slice_index text.now 0) ≡ true)
        (BeginsWithout opens_range text.now) }
{
    matches!(text.as_bytes().first(), Some(b'[' | b'{'))
}

// What is wanted by the text after the colon, and the rest. Errors: `NoText`, `Unended`.
fn read_wanted(text: &str) -> Result<(Wanted<'_>, &str), QueryReason>
    ensures found { IfOk result
        (λ found. BeginsWithWanted text.now (wanted_text found.0) found.1.now) }
    ensures refused { IfErr result (RefusesWanted text.now) }
{
    match quoted(text) {
        Ok(Some((inner, rest))) => match after_byte(rest, b'*') {
            Some(rest) => Ok((Wanted::Prefix(inner), rest)),
            None => Ok((Wanted::Text(inner), rest)),
        },
        Ok(None) if opens_range(text) => bracketed(text),
        Ok(None) => bare(text),
        Err(error) => Err(error),
    }
}

// The clause of a path, with which the whole text begins, and the rest. Errors: `NoText`, `Unended`.
fn clause<'q>(
    whole: &'q str,
    path: &'q str,
    text: &'q str,
) -> Result<(Token<'q>, &'q str), QueryReason>
    requires { BeginsWithPath whole.now path.now text.now }
    ensures found { IfOk result
        (λ found. BeginsWithToken whole.now (token_of found.0) found.1.now) }
    ensures refused { IfErr result (RefusesToken whole.now) }
{
    match read_wanted(text) {
        Ok((wanted, rest)) => Ok((Token::Clause { path, wanted }, rest)),
        Err(error) => Err(error),
    }
}

// The operator of a word, if it is one's.
fn operator(word: &str) -> Option<Token<'_>>
    ensures { MatchOption result ((token : QueryToken) → ¬ IsOperator token word.now)
        (λ token. IsOperator (token_of token) word.now) }
{
    match word {
        "AND" => Some(Token::And),
        "OR" => Some(Token::Or),
        "NOT" => Some(Token::Not),
        _ => None,
    }
}

// The operator or the clause with which the text begins, and the rest. It begins with a bare word or a colon. Errors: `NoPath`, `NoColon`, `NoText`, `Unended`.
fn word_token(text: &str) -> Result<(Token<'_>, &str), QueryReason>
    requires some { text.now ≢ [] }
    requires no_end { BeginsWithout ends_word text.now }
    ensures found { IfOk result
        (λ found. BeginsWithToken text.now (token_of found.0) found.1.now) }
    ensures refused { IfErr result (RefusesToken text.now) }
{
    let (word, rest) = Stop::Path.split(text);
    match after_byte(rest, b':') {
        Some(_) if word.is_empty() => Err(QueryReason::NoPath),
        Some(rest) => clause(text, word, rest),
        None => match operator(word) {
            Some(token) => Ok((token, rest)),
            None => Err(QueryReason::NoColon),
        },
    }
}

// The token with which the text begins, and the rest. It begins with no white space. Errors: `NoPath`, `NoColon`, `NoText`, `Unended`.
pub(crate) fn next_token(text: &str) -> Result<(Token<'_>, &str), QueryReason>
    requires some { text.now ≢ [] }
    requires no_space { BeginsWithout is_ascii_whitespace text.now }
    ensures found { IfOk result
        (λ found. BeginsWithToken text.now (token_of found.0) found.1.now) }
    ensures refused { IfErr result (RefusesToken text.now) }
{
    if let Some(rest) = after_byte(text, b'(') {
        return Ok((Token::Open, rest));
    }
    if let Some(rest) = after_byte(text, b')') {
        return Ok((Token::Close, rest));
    }
    match quoted(text) {
        Ok(Some((path, rest))) => match after_byte(rest, b':') {
            Some(after) => clause(text, path, after),
            None => Err(QueryReason::NoColon),
        },
        Ok(None) => word_token(text),
        Err(error) => Err(error),
    }
}
