//! The places in a text of JSON, and which bytes lead from one to the next, see RFC 8259.

ghost use Rattle.std.specs.Prelude.{◌≡◌};
ghost use Rattle.tv_json.specs.Syntax.{first_place, expected, expected_after, may_end, step_at, value_begins, key_begins, value_ends, in_string, in_escape};
ghost use Rattle.tv_json.specs.Syntax.{after_digit, after_backslash, after_first_digit, after_digit_d, is_letter_d, after_low, escape_expected, in_word};
ghost use Rattle.tv_json.specs.Syntax.{number_goes_on, in_number, is_whole_number, number_expected, spaced};
ghost use Rattle.tv_json.specs.LargeNumber.{value_comes};
ghost use Rattle.json.specs.Word.{is_space};

use crate::json_expected::{JsonExpected, JsonWord, LowSurrogatePart};

// What a list is.
#[derive(Clone, Copy, PartialEq, Eq, Drop)]
pub(crate) enum ListKind {
    Array,
    Object,
}

// What a string is.
#[derive(Clone, Copy, Drop)]
pub(crate) enum StringRole {
    Key,
    Value,
}

// What comes next of an escape.
#[derive(Clone, Copy, Drop)]
pub(crate) enum EscapePart {
    // The byte after the backslash.
    Letter,
    // The four digits after `\u`.
    FirstDigit,
    SecondDigit,
    ThirdDigit,
    FourthDigit,
    // The second digit, after a first one of `d`.
    SecondDigitAfterD,
    // The last two digits of a high surrogate.
    HighThirdDigit,
    HighFourthDigit,
    // The first four bytes of the low surrogate after a high one.
    Low(LowSurrogatePart),
}

// What has come of a number.
#[derive(Clone, Copy, Drop)]
pub(crate) enum NumberPart {
    // The minus.
    Minus,
    // The one digit 0 before the point.
    Zero,
    // Digits before the point.
    Whole,
    // The point.
    Point,
    // Digits after the point.
    Fraction,
    // The letter e.
    LetterE,
    // The sign of the exponent.
    Sign,
    // Digits of the exponent.
    Exponent,
}

// A place in a text, by what comes next or by what has begun.
#[derive(Clone, Copy, Drop)]
pub(crate) enum Place {
    // A value comes.
    Value,
    // The first value of an array comes, or its end.
    ValueOrEnd,
    // A key comes.
    Key,
    // The first key of an object comes, or its end.
    KeyOrEnd,
    // The colon after a key comes.
    Colon,
    // A value is complete.
    AfterValue,
    // A string has begun.
    InString(StringRole),
    // An escape has begun in a string.
    InEscape(StringRole, EscapePart),
    // A number has begun.
    InNumber(NumberPart),
    // This many letters of a word have come.
    InWord(JsonWord, usize),
}

// What a byte does.
#[derive(Clone, Copy, Drop)]
pub(crate) enum Step {
    // It leads to this place in the same list.
    To(Place),
    // It begins a list.
    Begin(ListKind),
    // It ends the innermost list.
    End,
}

// Where a list begins.
pub(crate) fn first_place(kind: ListKind) -> Place
    ensures { result ≡ first_place kind }
{
    match kind {
        ListKind::Array => Place::ValueOrEnd,
        ListKind::Object => Place::KeyOrEnd,
    }
}

// Whether a value comes there.
pub(crate) fn value_comes(place: Place) -> bool
    ensures { result ≡ value_comes place }
{
    matches!(place, Place::Value | Place::ValueOrEnd)
}

// Whether the text may end after its value.
pub(crate) fn may_end(place: Place, innermost: Option<ListKind>) -> bool
    ensures { result ≡ may_end place innermost }
{
    match place {
        Place::AfterValue => innermost.is_none(),
        Place::InNumber(part) => is_whole_number(part) && innermost.is_none(),
        _ => false,
    }
}

// What comes next at a place.
pub(crate) fn expected(place: Place, innermost: Option<ListKind>) -> JsonExpected
    ensures { result ≡ expected place innermost }
{
    match place {
        Place::Value => JsonExpected::Value,
        Place::ValueOrEnd => JsonExpected::ValueOrArrayEnd,
        Place::Key => JsonExpected::Key,
        Place::KeyOrEnd => JsonExpected::KeyOrObjectEnd,
        Place::Colon => JsonExpected::Colon,
        Place::AfterValue => expected_after(innermost),
        Place::InString(_) => JsonExpected::StringCharacter,
        Place::InEscape(_, part) => escape_expected(part),
        Place::InNumber(part) => number_expected(part, innermost),
        Place::InWord(word, _) => JsonExpected::Word(word),
    }
}

// What comes next after a value.
fn expected_after(innermost: Option<ListKind>) -> JsonExpected
    ensures { result ≡ expected_after innermost }
{
    match innermost {
        None => JsonExpected::TextEnd,
        Some(ListKind::Array) => JsonExpected::CommaOrArrayEnd,
        Some(ListKind::Object) => JsonExpected::CommaOrObjectEnd,
    }
}

// What comes next in an escape.
fn escape_expected(part: EscapePart) -> JsonExpected
    ensures { result ≡ escape_expected part }
{
    match part {
        EscapePart::Letter => JsonExpected::Escape,
        EscapePart::SecondDigitAfterD => JsonExpected::HexadecimalDigitBelowC,
        EscapePart::Low(part) => JsonExpected::LowSurrogate(part),
        _ => JsonExpected::HexadecimalDigit,
    }
}

// What comes next after a part of a number.
fn number_expected(part: NumberPart, innermost: Option<ListKind>) -> JsonExpected
    ensures { result ≡ number_expected part innermost }
{
    match part {
        NumberPart::Minus | NumberPart::Point | NumberPart::Sign => JsonExpected::Digit,
        NumberPart::LetterE => JsonExpected::DigitOrSign,
        _ => expected_after(innermost),
    }
}

fn is_space(byte: u8) -> bool
    ensures { result ≡ is_space byte }
{
    byte == b' ' || byte == b'\t' || byte == b'\n' || byte == b'\r'
}

// What a byte does where a value comes.
fn value_begins(byte: u8) -> Option<Step>
    ensures { result ≡ value_begins byte }
{
    match byte {
        b'"' => Some(Step::To(Place::InString(StringRole::Value))),
        b'[' => Some(Step::Begin(ListKind::Array)),
        b'{' => Some(Step::Begin(ListKind::Object)),
        b'-' => Some(Step::To(Place::InNumber(NumberPart::Minus))),
        b'0' => Some(Step::To(Place::InNumber(NumberPart::Zero))),
        b'1'..=b'9' => Some(Step::To(Place::InNumber(NumberPart::Whole))),
        b't' => Some(Step::To(Place::InWord(JsonWord::True, 1))),
        b'f' => Some(Step::To(Place::InWord(JsonWord::False, 1))),
        b'n' => Some(Step::To(Place::InWord(JsonWord::Null, 1))),
        _ => None,
    }
}

// What a byte does where a key comes.
fn key_begins(byte: u8) -> Option<Step>
    ensures { result ≡ key_begins byte }
{
    if byte == b'"' {
        Some(Step::To(Place::InString(StringRole::Key)))
    } else {
        None
    }
}

// What a byte does after a value.
fn value_ends(innermost: Option<ListKind>, byte: u8) -> Option<Step>
    ensures { result ≡ value_ends innermost byte }
{
    match (innermost, byte) {
        (Some(ListKind::Array), b',') => Some(Step::To(Place::Value)),
        (Some(ListKind::Array), b']') => Some(Step::End),
        (Some(ListKind::Object), b',') => Some(Step::To(Place::Key)),
        (Some(ListKind::Object), b'}') => Some(Step::End),
        _ => None,
    }
}

// Where a byte leads in a string.
fn in_string(role: StringRole, byte: u8) -> Option<Place>
    ensures { result ≡ in_string role byte }
{
    match byte {
        b'"' => Some(match role {
            StringRole::Key => Place::Colon,
            StringRole::Value => Place::AfterValue,
        }),
        b'\\' => Some(Place::InEscape(role, EscapePart::Letter)),
        0..=31 => None,
        _ => Some(Place::InString(role)),
    }
}

// Where a hexadecimal digit leads.
fn after_digit(byte: u8, to: Place) -> Option<Place>
    ensures { result ≡ after_digit byte to }
{
    if byte.is_ascii_hexdigit() {
        Some(to)
    } else {
        None
    }
}

// Where the byte after a backslash leads.
fn after_backslash(role: StringRole, byte: u8) -> Option<Place>
    ensures { result ≡ after_backslash role byte }
{
    match byte {
        b'u' => Some(Place::InEscape(role, EscapePart::FirstDigit)),
        b'"' | b'\\' | b'/' | b'b' | b'f' | b'n' | b'r' | b't' => Some(Place::InString(role)),
        _ => None,
    }
}

// Where the first digit of an escape leads.
fn after_first_digit(role: StringRole, byte: u8) -> Option<Place>
    ensures { result ≡ after_first_digit role byte }
{
    if is_letter_d(byte) {
        return Some(Place::InEscape(role, EscapePart::SecondDigitAfterD));
    }
    after_digit(byte, Place::InEscape(role, EscapePart::SecondDigit))
}

// Where the second digit of an escape leads, after a first one of `d`.
fn after_digit_d(role: StringRole, byte: u8) -> Option<Place>
    ensures { result ≡ after_digit_d role byte }
{
    match byte {
        b'0'..=b'7' => Some(Place::InEscape(role, EscapePart::ThirdDigit)),
        b'8' | b'9' | b'a' | b'b' | b'A' | b'B' => Some(Place::InEscape(
            role,
            EscapePart::HighThirdDigit,
        )),
        _ => None,
    }
}

fn is_letter_d(byte: u8) -> bool
    ensures { result ≡ is_letter_d byte }
{
    byte == b'd' || byte == b'D'
}

// Where a byte of a low surrogate's escape leads.
fn after_low(role: StringRole, part: LowSurrogatePart, byte: u8) -> Option<Place>
    ensures { result ≡ after_low role part byte }
{
    let (is_next, to) = match part {
        LowSurrogatePart::Backslash => (byte == b'\\', EscapePart::Low(LowSurrogatePart::LetterU)),
        LowSurrogatePart::LetterU => (byte == b'u', EscapePart::Low(LowSurrogatePart::FirstDigit)),
        LowSurrogatePart::FirstDigit => (
            is_letter_d(byte),
            EscapePart::Low(LowSurrogatePart::SecondDigit),
        ),
        LowSurrogatePart::SecondDigit => (
            matches!(byte, b'c'..=b'f' | b'C'..=b'F'),
            EscapePart::ThirdDigit,
        ),
    };
    if is_next {
        Some(Place::InEscape(role, to))
    } else {
        None
    }
}

// Where a byte leads in an escape.
fn in_escape(role: StringRole, part: EscapePart, byte: u8) -> Option<Place>
    ensures { result ≡ in_escape role part byte }
{
    match part {
        EscapePart::Letter => after_backslash(role, byte),
        EscapePart::FirstDigit => after_first_digit(role, byte),
        EscapePart::SecondDigit => after_digit(byte, Place::InEscape(role, EscapePart::ThirdDigit)),
        EscapePart::ThirdDigit => after_digit(byte, Place::InEscape(role, EscapePart::FourthDigit)),
        EscapePart::FourthDigit => after_digit(byte, Place::InString(role)),
        EscapePart::SecondDigitAfterD => after_digit_d(role, byte),
        EscapePart::HighThirdDigit => after_digit(
            byte,
            Place::InEscape(role, EscapePart::HighFourthDigit),
        ),
        EscapePart::HighFourthDigit => after_digit(
            byte,
            Place::InEscape(role, EscapePart::Low(LowSurrogatePart::Backslash)),
        ),
        EscapePart::Low(part) => after_low(role, part, byte),
    }
}

// Where a byte leads after this many letters of a word.
fn in_word(word: JsonWord, letters: usize, byte: u8) -> Option<Place>
    ensures { result ≡ in_word word letters byte }
{
    let text = word.text().as_bytes();
    if text.get(letters) != Some(&byte) {
        return None;
    }
    if letters + 1 == text.len() {
        Some(Place::AfterValue)
    } else {
        Some(Place::InWord(word, letters + 1))
    }
}

// What a byte makes of a part of a number, if the number goes on.
fn number_goes_on(part: NumberPart, byte: u8) -> Option<NumberPart>
    ensures { result ≡ number_goes_on part byte }
{
    match (part, byte) {
        (NumberPart::Minus, b'0') => Some(NumberPart::Zero),
        (NumberPart::Minus | NumberPart::Whole, b'0'..=b'9') => Some(NumberPart::Whole),
        (NumberPart::Point | NumberPart::Fraction, b'0'..=b'9') => Some(NumberPart::Fraction),
        (NumberPart::LetterE | NumberPart::Sign | NumberPart::Exponent, b'0'..=b'9') => Some(
            NumberPart::Exponent,
        ),
        (NumberPart::LetterE, b'+' | b'-') => Some(NumberPart::Sign),
        (NumberPart::Zero | NumberPart::Whole, b'.') => Some(NumberPart::Point),
        (NumberPart::Zero | NumberPart::Whole | NumberPart::Fraction, b'e' | b'E') => Some(
            NumberPart::LetterE,
        ),
        _ => None,
    }
}

// Whether a number may end with this part.
fn is_whole_number(part: NumberPart) -> bool
    ensures { result ≡ is_whole_number part }
{
    matches!(
        part,
        NumberPart::Zero | NumberPart::Whole | NumberPart::Fraction | NumberPart::Exponent
    )
}

// What a byte does after a part of a number.
fn in_number(part: NumberPart, innermost: Option<ListKind>, byte: u8) -> Option<Step>
    ensures { result ≡ in_number part innermost byte }
{
    if let Some(next) = number_goes_on(part, byte) {
        return Some(Step::To(Place::InNumber(next)));
    }
    if !is_whole_number(part) {
        return None;
    }
    spaced(Place::AfterValue, byte, value_ends(innermost, byte))
}

// What a byte does between two tokens, where any other than a space does this.
fn spaced(place: Place, byte: u8, other: Option<Step>) -> Option<Step>
    ensures { result ≡ spaced place byte other }
{
    if is_space(byte) {
        Some(Step::To(place))
    } else {
        other
    }
}

// What a byte does where its place is in this list, if it can come there.
pub(crate) fn step_at(place: Place, innermost: Option<ListKind>, byte: u8) -> Option<Step>
    ensures { result ≡ step_at place innermost byte }
{
    match place {
        Place::Value => spaced(place, byte, value_begins(byte)),
        Place::ValueOrEnd if byte == b']' => Some(Step::End),
        Place::ValueOrEnd => spaced(place, byte, value_begins(byte)),
        Place::Key => spaced(place, byte, key_begins(byte)),
        Place::KeyOrEnd if byte == b'}' => Some(Step::End),
        Place::KeyOrEnd => spaced(place, byte, key_begins(byte)),
        Place::Colon if byte == b':' => Some(Step::To(Place::Value)),
        Place::Colon => spaced(place, byte, None),
        Place::AfterValue => spaced(place, byte, value_ends(innermost, byte)),
        Place::InString(role) => in_string(role, byte).map(Step::To),
        Place::InEscape(role, part) => in_escape(role, part, byte).map(Step::To),
        Place::InNumber(part) => in_number(part, innermost, byte),
        Place::InWord(word, letters) => in_word(word, letters, byte).map(Step::To),
    }
}
