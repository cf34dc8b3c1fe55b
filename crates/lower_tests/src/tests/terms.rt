//! Terms in one buffer, facets that are counted, and terms that are printed.

ghost use Rattle.std.specs.Prelude.{[], ◌≢◌, IsTrue};

use std::alloc::Global;
use std::net::Ipv6Addr;
use std::test::Fail;
use tv_base::{
    DocumentFacet, Facet, FacetCount, FacetCountsError, count_child_documents, count_child_facets,
    greatest_counts,
};
use tv_date::date_time::DateTime;
use tv_options::Type;
use tv_term::{Term, TermError, TermRange, TermWriter};
use tv_value::field::Field;

// Whether a call has put a term into the writer, and the same one as the other, which is dropped.
fn has_written(
    written: Result<(), TermError>,
    writer: &TermWriter,
    other: Result<Term, TermError>,
) -> bool {
    match other {
        Ok(other) => written.is_ok() && writer.has_term() && *writer.term() == other,
        Err(_) => false,
    }
}

// Whether the writer has a term of these bytes.
fn has_serialized(writer: &TermWriter, bytes: &[u8]) -> bool {
    writer.has_term() && writer.term().serialized_term() == bytes
}

#[test]
fn numbers_follow_a_text(rt: HostRuntime) {
    let (alloc, field) = (rt.alloc(), Field::from_field_id(7));
    let text = "a text that is longer than all others";
    let mut writer = TermWriter::new(alloc);
    assert!(rt; !writer.has_term());
    let written = writer.write_text(field, text);
    assert!(rt; has_written(written, &writer, Term::from_field_text(alloc, field, text)));
    let written = writer.write_u64(field, 258);
    assert!(rt; has_written(written, &writer, Term::from_field_u64(alloc, field, 258)));
    assert!(rt; has_serialized(&writer, &[0, 0, 0, 7, b'u', 0, 0, 0, 0, 0, 0, 1, 2]));
    let first = Field::from_field_id(0);
    let written = writer.write_i64(first, -1);
    assert!(rt; has_written(written, &writer, Term::from_field_i64(alloc, first, -1)));
}

#[test]
fn other_terms_follow_one_another(rt: HostRuntime) {
    let (alloc, field) = (rt.alloc(), Field::from_field_id(7));
    let address = Ipv6Addr::from_bits(1);
    let mut writer = TermWriter::new(alloc);
    let written = writer.write_bool(field, true);
    assert!(rt; has_written(written, &writer, Term::from_field_bool(alloc, field, true)));
    let written = writer.write_bytes(field, &[]);
    assert!(rt; has_written(written, &writer, Term::from_field_bytes(alloc, field, &[])));
    let written = writer.write_ip_addr(field, address);
    assert!(rt;
        has_written(
            written,
            &writer,
            Term::from_field_ip_addr(alloc, field, address)
        )
    );
}

#[test]
fn value_bytes_are_written_as_they_are(rt: HostRuntime) {
    let (alloc, field) = (rt.alloc(), Field::from_field_id(7));
    let mut writer = TermWriter::new(alloc);
    let is_written = writer.write_value_bytes(field, Type::Str, b"ab").is_ok();
    assert!(rt; is_written && has_serialized(&writer, &[0, 0, 0, 7, b's', b'a', b'b']));
    let is_written = writer.write_value_bytes(field, Type::U64, &[]).is_ok();
    assert!(rt; is_written && has_serialized(&writer, &[0, 0, 0, 7, b'u']));
}

// Whether a type's code and its value bytes stand after the path of a term, which is dropped.
fn appends_bytes(path: Result<Term, TermError>) -> bool {
    let Ok(mut term) = path else {
        return false;
    };
    term.append_type_and_bytes(Type::Bytes, &[0, 255]).is_ok()
        && term.serialized_value_bytes() == [b'a', 0, b'b', 0, 255].as_slice()
}

#[test]
fn value_bytes_follow_a_path(rt: HostRuntime) {
    let field = Field::from_field_id(1);
    assert!(rt; appends_bytes(Term::from_field_json_path(rt.alloc(), field, "a", false)));
}

// Whether the writer makes the term of a facet, which is dropped.
fn writes_facet(alloc: Global, writer: &mut TermWriter, facet: Facet) -> bool {
    let field = Field::from_field_id(1);
    let written = writer.write_facet(field, &facet);
    has_written(written, writer, Term::from_facet(alloc, field, &facet))
        && writer.has_term()
        && writer.term().serialized_value_bytes() == b"a\0b".as_slice()
}

#[test]
fn dates_and_facets_follow_one_another(rt: HostRuntime) -> Result<(), Fail> {
    let (alloc, field) = (rt.alloc(), Field::from_field_id(1));
    let facet = Facet::from_text(alloc, "/a/b")?;
    let mut writer = TermWriter::new(alloc);
    let date = DateTime::from_timestamp_nanos(1_500_000_001);
    let written = writer.write_date(field, date);
    assert!(rt; has_written(written, &writer, Term::from_field_date(alloc, field, date)));
    let written = writer.write_date_for_search(field, date);
    let other = Term::from_field_date_for_search(alloc, field, date);
    assert!(rt; has_written(written, &writer, other));
    assert!(rt; writes_facet(alloc, &mut writer, facet));
    Ok(())
}

// Whether the writer has a term that holds this value.
fn has_value(writer: &TermWriter, bytes: &[u8]) -> bool
    ensures { IsTrue result → writer.now ≢ [] }
{
    writer.has_term() && writer.term().serialized_value_bytes() == bytes
}

#[test]
fn json_terms_follow_one_another(rt: HostRuntime) {
    let field = Field::from_field_id(1);
    let mut writer = TermWriter::new(rt.alloc());
    let is_written = writer
        .write_json_path(field, "k8s\\.node.id", false)
        .is_ok();
    assert!(rt; is_written && has_value(&writer, b"k8s.node\x01id\0"));
    let is_written = writer.append_text("c").is_ok();
    assert!(rt; is_written && has_value(&writer, b"k8s.node\x01id\0sc"));
    let is_written = writer.write_json_segments(field, &["a", "b.c"]).is_ok();
    assert!(rt; is_written && has_value(&writer, b"a\x01b.c\0"));
    let is_written = writer.append_fast_value(2u64).is_ok();
    assert!(rt; is_written && has_value(&writer, b"a\x01b.c\0u\0\0\0\0\0\0\0\x02"));
    let refused = Err(TermError::NulInPath);
    assert!(rt; writer.write_json_path(field, "a\0", false) == refused);
    assert!(rt; writer.write_json_segments(field, &["a", "\0"]) == refused);
}

fn counted(child: &[u8], count: u64) -> FacetCount<'_> {
    FacetCount { child, count }
}

// Facets in rising order.
const RISING: [&[u8]; 8] = [
    b"", b"a", b"a\0b", b"a\0b\0c", b"a\0b\0c", b"a\0bc", b"ab\0b", b"b",
];

// Whether these are the counts of the facets below an ancestor.
fn counts_facets(alloc: Global, ancestor: &[u8], expected: &[FacetCount<'_>]) -> bool {
    match count_child_facets(alloc, ancestor, &RISING) {
        Ok(counts) => counts.as_slice() == expected,
        Err(_) => false,
    }
}

#[test]
fn facets_are_counted(rt: HostRuntime) {
    let alloc = rt.alloc();
    let (a, ab, b) = (counted(b"a", 5), counted(b"ab", 1), counted(b"b", 1));
    assert!(rt; counts_facets(alloc, b"", &[a, ab, b]));
    let (ab, abc) = (counted(b"a\0b", 3), counted(b"a\0bc", 1));
    assert!(rt; counts_facets(alloc, b"a", &[ab, abc]));
    let refused = count_child_facets(alloc, b"a", &[b"b", b"a"]).err();
    assert!(rt; refused == Some(FacetCountsError::NotRising));
    assert!(rt;
        Facet::encoded_is_prefix_of(b"a", b"a\0b") && !Facet::encoded_is_prefix_of(b"a", b"ab")
    );
}

fn facet_of(document: u64, facet: &[u8]) -> DocumentFacet<'_> {
    DocumentFacet { facet, document }
}

// Whether these are the counts of the documents below an ancestor.
fn counts_documents(alloc: Global, ancestor: &[u8], expected: &[FacetCount<'_>]) -> bool {
    let facets = [
        facet_of(7, b"shop\0shoes\0red"),
        facet_of(3, b"shop\0hats"),
        facet_of(7, b"shop\0shoes"),
        facet_of(9, b"shop"),
        facet_of(3, b"shop\0shoes"),
        facet_of(7, b"shop\0shoes"),
        facet_of(2, b"shopping\0list"),
        facet_of(5, b"shop\0bags"),
    ];
    match count_child_documents(alloc, ancestor, &facets) {
        Ok(counts) => counts.as_slice() == expected,
        Err(_) => false,
    }
}

// Whether these are the greatest of the counts.
fn has_greatest(
    alloc: Global,
    counts: &[FacetCount<'_>],
    most: usize,
    expected: &[FacetCount<'_>],
) -> bool {
    match greatest_counts(alloc, counts, most) {
        Ok(greatest) => greatest.as_slice() == expected,
        Err(_) => false,
    }
}

#[test]
fn documents_are_counted(rt: HostRuntime) {
    let alloc = rt.alloc();
    let (bags, hats) = (counted(b"shop\0bags", 1), counted(b"shop\0hats", 1));
    let shoes = counted(b"shop\0shoes", 2);
    let counts = [bags, hats, shoes];
    assert!(rt; counts_documents(alloc, b"shop", &counts));
    assert!(rt;
        has_greatest(alloc, &counts, 2, &[shoes, bags])
            && has_greatest(alloc, &counts, 9, &[shoes, bags, hats])
    );
    let (shop, shopping) = (counted(b"shop", 4), counted(b"shopping", 1));
    assert!(rt; counts_documents(alloc, b"", &[shop, shopping]));
}

// Whether this is printed of a count, and then by `Debug`.
fn is_printed(alloc: Global, count: FacetCount<'_>, expected: &str) -> Result<bool, Fail> {
    Ok(format!(in alloc; "{count} {count:?}")?.as_str() == expected)
}

#[test]
fn counts_are_printed(rt: HostRuntime) -> Result<(), Fail> {
    let expected = "/shop/a\\/b: 2 FacetCount { child: Facet(/shop/a\\/b), count: 2 }";
    assert!(rt; is_printed(rt.alloc(), counted(b"shop\0a/b", 2), expected)?);
    let expected = "[255]: 1 FacetCount { child: [255], count: 1 }";
    assert!(rt; is_printed(rt.alloc(), counted(b"\xff", 1), expected)?);
    Ok(())
}

// Whether `Debug` prints this of a term, which is dropped.
fn is_shown(alloc: Global, term: Result<Term, TermError>, expected: &str) -> bool {
    let Ok(term) = term else {
        return false;
    };
    match format!(in alloc; "{term:?}") {
        Ok(text) => text.as_str() == expected,
        Err(_) => false,
    }
}

#[test]
fn terms_are_printed(rt: HostRuntime) {
    let (alloc, field) = (rt.alloc(), Field::from_field_id(1));
    let number = Term::from_field_u64(alloc, field, 12);
    let is_number = is_shown(alloc, number, "Term(field=1, type=U64, 12)");
    let negative = Term::from_field_i64(alloc, field, -1);
    let is_negative = is_shown(alloc, negative, "Term(field=1, type=I64, -1)");
    let truth = Term::from_field_bool(alloc, field, true);
    let is_truth = is_shown(alloc, truth, "Term(field=1, type=Bool, true)");
    assert!(rt; is_number && is_negative && is_truth);
    let text = Term::from_field_text(alloc, field, "a\n\"");
    let is_text = is_shown(alloc, text, "Term(field=1, type=Str, \"a\\n\\\"\")");
    let bytes = Term::from_field_bytes(alloc, field, &[1, 255]);
    let are_bytes = is_shown(alloc, bytes, "Term(field=1, type=Bytes, [1, 255])");
    let address = Term::from_field_ip_addr(alloc, field, Ipv6Addr::from_bits(1));
    let is_address = is_shown(alloc, address, "Term(field=1, type=IpAddr, ::1)");
    let empty = Term::with_capacity(alloc, 0);
    let is_empty = is_shown(alloc, empty, "Term(field=0, type=0)");
    assert!(rt; is_text && are_bytes && is_address && is_empty);
}

// Whether there is a range, which is dropped, and `Debug` prints this of it.
fn is_range_shown(alloc: Global, range: Option<TermRange>, expected: &str) -> bool {
    let Some(range) = range else {
        return false;
    };
    match format!(in alloc; "{range:?}") {
        Ok(text) => text.as_str() == expected,
        Err(_) => false,
    }
}

#[test]
fn ranges_are_printed(rt: HostRuntime) {
    let (alloc, field) = (rt.alloc(), Field::from_field_id(1));
    let texts = Term::prefix_range(alloc, field, "a\"\u{ff}").ok();
    let shown = r#"TermRange(b"\x00\x00\x00\x01sa\"\xc3\xbf"..b"\x00\x00\x00\x01sa\"\xc3\xc0")"#;
    assert!(rt; is_range_shown(alloc, texts, shown));
    let all = TermRange::of_prefix(alloc, &[255]).ok();
    assert!(rt; is_range_shown(alloc, all, r#"TermRange(b"\xff"..)"#));
}

// The term of a path with a text.
fn path_with_text(alloc: Global, field: Field) -> Result<Term, TermError> {
    let mut term = Term::from_field_json_path(alloc, field, "a.b", false)?;
    term.append_type_and_str("c")?;
    Ok(term)
}

// Whether `Debug` prints this of a facet, which is dropped, after a field and a date.
fn is_facet_shown(
    alloc: Global,
    field: Field,
    date: DateTime,
    facet: Facet,
    expected: &str,
) -> bool {
    match format!(in alloc; "{field:?} {date:?} {facet:?}") {
        Ok(text) => text.as_str() == expected,
        Err(_) => false,
    }
}

#[test]
fn what_terms_hold_is_printed(rt: HostRuntime) -> Result<(), Fail> {
    let (alloc, field) = (rt.alloc(), Field::from_field_id(1));
    let facet = Facet::from_text(alloc, "/a/b\\/c")?;
    let term = Term::from_facet(alloc, field, &facet);
    assert!(rt; is_shown(alloc, term, "Term(field=1, type=Facet, Facet(/a/b\\/c))"));
    let date = DateTime::from_timestamp_nanos(1_500_000_000);
    let expected = "Field(1) 1970-01-01T00:00:01.5Z Facet(/a/b\\/c)";
    assert!(rt; is_facet_shown(alloc, field, date, facet, expected));
    let term = Term::from_field_date(alloc, field, date);
    assert!(rt;
        is_shown(
            alloc,
            term,
            "Term(field=1, type=Date, 1970-01-01T00:00:01.5Z)"
        )
    );
    let path = Term::from_field_json_path(alloc, field, "a.b", false);
    assert!(rt; is_shown(alloc, path, "Term(field=1, type=Json, path=a.b, )"));
    let expected = "Term(field=1, type=Json, path=a.b, type=Str, \"c\")";
    assert!(rt; is_shown(alloc, path_with_text(alloc, field), expected));
    Ok(())
}
