//! Laws of options and of terms, in use.

ghost use Rattle.std.specs.Prelude.{◌≡◌, ◌↔◌, IsTrue};

use std::cmp::Ordering;
use std::test::Fail;
use tv_options::laws::{comparisons_of_flag_options_agree, comparisons_of_textual_options_agree};
use tv_options::{
    COERCE, Coercion, FAST, IndexRecordOption, NumericOptions, STRING, TEXT, TextOptions,
};
use tv_term::laws::{
    appended_fast_values_compare_as_values, appended_numbers_are_read_back,
    appended_texts_are_read_back, json_paths_are_read_back, signed_terms_compare_as_numbers,
    terms_compare_as_fields_and_values,
};
use tv_term::{Term, TermError};
use tv_value::field::Field;

// What `==` of two options says of them, by the law at their type.
fn same_numbers(one: &NumericOptions, other: &NumericOptions) -> bool
    ensures { IsTrue result ↔ (one.now ≡ other.now) }
{
    comparisons_of_flag_options_agree::<Coercion>();
    one == other
}

fn same_texts(one: &TextOptions, other: &TextOptions) -> bool
    ensures { IsTrue result ↔ (one.now ≡ other.now) }
{
    comparisons_of_textual_options_agree::<Coercion>();
    one == other
}

#[test]
fn equal_options_are_the_same(rt: HostRuntime) {
    let number = NumericOptions::default().set_coerce();
    assert!(rt; same_numbers(&number, &COERCE.into()));
    assert!(rt; !same_numbers(&number, &FAST.into()));
    let words: TextOptions = TEXT;
    assert!(rt; same_texts(&words, &(TEXT | STRING)));
    assert!(rt; !same_texts(&words, &STRING));
}

#[test]
fn terms_are_ordered(rt: HostRuntime) -> Result<(), Fail> {
    let (alloc, field) = (rt.alloc(), Field::from_field_id(0));
    let order = appended_fast_values_compare_as_values(alloc, field, "a.b", false, -2i64, 1i64)?;
    assert!(rt; order == Ordering::Less);
    let order = signed_terms_compare_as_numbers(alloc, field, 3, -4)?;
    assert!(rt; order == Ordering::Greater);
    let term = Term::from_field_text(alloc, field, "a")?;
    let longer = Term::from_field_text(alloc, field, "aa")?;
    assert!(rt; terms_compare_as_fields_and_values(&term, &longer) == Ordering::Less);
    Ok(())
}

// Whether a text was read back, and this one.
fn is_text(text: Option<String>, expected: &str) -> bool {
    match text {
        Some(text) => text.as_str() == expected,
        None => false,
    }
}

#[test]
fn values_are_read_back(rt: HostRuntime) -> Result<(), Fail> {
    let (alloc, field) = (rt.alloc(), Field::from_field_id(0));
    let path = json_paths_are_read_back(alloc, field, "k8s\\.node.id", false, "c")?;
    assert!(rt; is_text(path, "k8s.node\u{1}id"));
    let text = appended_texts_are_read_back(alloc, field, "a", true, "c")?;
    assert!(rt; is_text(text, "c"));
    let number = appended_numbers_are_read_back(alloc, field, "a", true, -5)?;
    assert!(rt; number == Some(-5));
    let refused = json_paths_are_read_back(alloc, field, "a\0b", false, "c").err();
    assert!(rt; refused == Some(TermError::NulInPath));
    Ok(())
}

#[test]
fn an_index_keeps_frequencies_before_positions(rt: HostRuntime) {
    let (least, middle, most) = (
        IndexRecordOption::Basic,
        IndexRecordOption::WithFreqs,
        IndexRecordOption::WithFreqsAndPositions,
    );
    assert!(rt; !least.has_freq() && middle.has_freq() && most.has_freq());
    assert!(rt; !least.has_positions() && !middle.has_positions() && most.has_positions());
}
