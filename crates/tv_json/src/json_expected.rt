//! What can come next in a text of JSON, as said where a text goes wrong.

ghost use Rattle.std.specs.Prelude.{◌≡◌};
ghost use Rattle.tv_json.specs.Syntax.{word_text};

use std::fmt;

/// One of the three words of JSON. (Not in tantivy.)
#[derive(Clone, Copy, Debug, PartialEq, Eq, Drop)]
pub enum JsonWord {
    /// `true`.
    True,
    /// `false`.
    False,
    /// `null`.
    Null,
}

impl JsonWord {
    /// The word as JSON has it.
    pub fn text(self) -> &'static str
        ensures { result.now ≡ word_text self }
    {
        match self {
            JsonWord::True => "true",
            JsonWord::False => "false",
            JsonWord::Null => "null",
        }
    }
}

/// The next of the first four bytes of a low surrogate's escape, `\udc00` to `\udfff`. (Not in tantivy.)
#[derive(Clone, Copy, Debug, PartialEq, Eq, Drop)]
pub enum LowSurrogatePart {
    /// The backslash.
    Backslash,
    /// The letter `u`.
    LetterU,
    /// The first digit, `d` or `D`.
    FirstDigit,
    /// The second digit, `c` to `f` or `C` to `F`.
    SecondDigit,
}

/// What can come next in a text of JSON, see RFC 8259. Between its tokens spaces, tabs, line feeds and carriage returns can come too, and
/// after digits more of their number. (Not in tantivy.)
#[derive(Clone, Copy, Debug, PartialEq, Eq, Drop)]
pub enum JsonExpected {
    /// A value: at the start of the text, after a colon, or after a comma in an array.
    Value,
    /// A value or `]`: after `[`.
    ValueOrArrayEnd,
    /// A key: after a comma in an object.
    Key,
    /// A key or `}`: after `{`.
    KeyOrObjectEnd,
    /// A colon: after a key.
    Colon,
    /// A comma or `]`: after a value of an array.
    CommaOrArrayEnd,
    /// A comma or `}`: after a value of an object.
    CommaOrObjectEnd,
    /// The end of the text: after its value.
    TextEnd,
    /// A character of a string, an escape or the closing quote. A control character has to be an escape.
    StringCharacter,
    /// What makes an escape: one of `"`, `\`, `/`, `b`, `f`, `n`, `r`, `t` and `u`, after a backslash.
    Escape,
    /// A hexadecimal digit of an escape.
    HexadecimalDigit,
    /// A hexadecimal digit below `c`, after `\ud`: the escape of a low surrogate comes only after that of a high one.
    HexadecimalDigitBelowC,
    /// This byte of the escape of a low surrogate: after the escape of a high one, `\ud800` to `\udbff`.
    LowSurrogate(LowSurrogatePart),
    /// A digit of a number: after its minus, its point, or the sign of its exponent.
    Digit,
    /// A digit or a sign: after the `e` of a number's exponent.
    DigitOrSign,
    /// The rest of this word, of which at least one letter has come.
    Word(JsonWord),
}

/// As `a value`, `a comma or "]"`, or `the rest of null`.
impl fmt::Display for JsonExpected {
    fn fmt<W: fmt::Write>(&self, f: &mut fmt::Formatter<W>) -> fmt::Result {
        let text = match self {
            JsonExpected::Value => "a value",
            JsonExpected::ValueOrArrayEnd => "a value or \"]\"",
            JsonExpected::Key => "a key",
            JsonExpected::KeyOrObjectEnd => "a key or \"}\"",
            JsonExpected::Colon => "a colon",
            JsonExpected::CommaOrArrayEnd => "a comma or \"]\"",
            JsonExpected::CommaOrObjectEnd => "a comma or \"}\"",
            JsonExpected::TextEnd => "the end of the text",
            JsonExpected::StringCharacter => "a character or the closing quote",
            JsonExpected::Escape => "one of \"\\/bfnrtu",
            JsonExpected::HexadecimalDigit => "a hexadecimal digit",
            JsonExpected::HexadecimalDigitBelowC => "a hexadecimal digit below c",
            JsonExpected::LowSurrogate(part) => return write!(f, "{part} of a low surrogate"),
            JsonExpected::Digit => "a digit",
            JsonExpected::DigitOrSign => "a digit or a sign",
            JsonExpected::Word(word) => return write!(f, "the rest of {}", word.text()),
        };
        f.write_str(text)
    }
}

/// As `the backslash`.
impl fmt::Display for LowSurrogatePart {
    fn fmt<W: fmt::Write>(&self, f: &mut fmt::Formatter<W>) -> fmt::Result {
        f.write_str(match self {
            LowSurrogatePart::Backslash => "the backslash",
            LowSurrogatePart::LetterU => "the u",
            LowSurrogatePart::FirstDigit => "the first digit, d,",
            LowSurrogatePart::SecondDigit => "the second digit, c to f,",
        })
    }
}
