//! Terms of documents, against bytes by hand: the field in four bytes, the highest first, the letter of the type, and the value.

use std::alloc::{AllocError, Global};
use std::net::Ipv6Addr;
use std::test::Fail;
use tantivy_schema::DateTime;
use tantivy_schema::schema::document::{ReferenceValueLeaf, TreeBuilder};
use tantivy_schema::schema::{
    Facet, Field, INDEXED, JsonObjectOptions, STORED, Schema, SchemaBuilder, SchemaError, TEXT,
    TantivyDocument, TermList, TermValuesError, TermVisitor, TextOptions, is_among, term_values,
    term_values_of_fields, visit_terms,
};
use tantivy_schema::tokenizer::{PreTokenizedString, Token};

// Adds fields of the first types, 0 to 4.
fn add_first_fields(builder: &mut SchemaBuilder) -> Result<(), SchemaError> {
    builder.add_text_field("text", TEXT)?;
    builder.add_u64_field("unsigned", INDEXED)?;
    builder.add_i64_field("signed", INDEXED)?;
    builder.add_bool_field("truth", INDEXED)?;
    builder.add_date_field("date", INDEXED)?;
    Ok(())
}

// Adds fields of the other types, 5 to 8, a field of JSON objects whose dots are expanded, 9, and one that isn't indexed, 10.
fn add_last_fields(builder: &mut SchemaBuilder) -> Result<(), SchemaError> {
    let text: TextOptions = TEXT;
    let json: JsonObjectOptions = text.into();
    builder.add_facet_field("facet", STORED)?;
    builder.add_bytes_field("bytes", INDEXED)?;
    builder.add_ip_addr_field("address", INDEXED)?;
    builder.add_json_field("json", TEXT)?;
    builder.add_json_field("parted", json.set_expand_dots_enabled())?;
    builder.add_u64_field("stored", STORED)?;
    Ok(())
}

// The schema of all these fields.
fn schema(alloc: Global) -> Result<Schema, Fail> {
    let mut builder = Schema::builder(alloc);
    add_first_fields(&mut builder)?;
    add_last_fields(&mut builder)?;
    Ok(builder.build()?)
}

fn field(number: u32) -> Field {
    Field::from_field_id(number)
}

// Whether the list has these terms and no others.
fn are_terms(terms: &TermList, wanted: &[&[u8]]) -> bool {
    terms.len() == wanted.len()
        && terms
            .iter()
            .zip(wanted.iter())
            .all(|(term, bytes)| term == *bytes)
}

// Adds a value of each type to the fields 0 to 7.
fn add_values(document: &mut TantivyDocument, facet: &Facet) -> Result<(), Fail> {
    document.add_text(field(0), "Ada")?;
    document.add_u64(field(1), 36)?;
    document.add_i64(field(2), -1)?;
    document.add_bool(field(3), true)?;
    document.add_date(field(4), DateTime::from_timestamp_nanos(1_500_000_000))?;
    document.add_facet(field(5), facet)?;
    document.add_bytes(field(6), b"\xff\0")?;
    document.add_ip_addr(field(7), Ipv6Addr::from_bits(1))?;
    Ok(())
}

// The text `b c` with the token `b`.
fn tokenized(alloc: Global) -> Result<PreTokenizedString, Fail> {
    let token = Token {
        offset_from: 0,
        offset_to: 1,
        position: 0,
        text: String::from_str(alloc, "b")?,
        position_length: 1,
    };
    let tokens = vec![in alloc; token]?;
    Ok(PreTokenizedString {
        text: String::from_str(alloc, "b c")?,
        tokens,
    })
}

// A document with a value of each type, and with a text that has tokens.
fn each_type(alloc: Global) -> Result<TantivyDocument, Fail> {
    let mut document = TantivyDocument::new(alloc);
    add_values(&mut document, &Facet::from_text(alloc, "/a/b")?)?;
    document.add_pre_tokenized_text(field(0), &tokenized(alloc)?)?;
    Ok(document)
}

// The terms of a document.
fn terms_of(alloc: Global, document: &TantivyDocument) -> Result<TermList, Fail> {
    let schema = schema(alloc)?;
    let mut terms = TermList::new(alloc);
    term_values(alloc, &schema, document, &mut terms)?;
    Ok(terms)
}

#[test]
fn each_type_has_its_term(rt: HostRuntime) -> Result<(), Fail> {
    let document = each_type(rt.alloc())?;
    let mut terms = terms_of(rt.alloc(), &document)?;
    let wanted: [&[u8]; 9] = [
        b"\0\0\0\0sAda",
        b"\0\0\0\x01u\0\0\0\0\0\0\0\x24",
        b"\0\0\0\x02i\x7f\xff\xff\xff\xff\xff\xff\xff",
        b"\0\0\0\x03o\0\0\0\0\0\0\0\x01",
        b"\0\0\0\x04d\x80\0\0\0\x3b\x9a\xca\0",
        b"\0\0\0\x05ha\0b",
        b"\0\0\0\x06b\xff\0",
        b"\0\0\0\x07p\0\0\0\0\0\0\0\0\0\0\0\0\0\0\0\x01",
        b"\0\0\0\0sb c",
    ];
    assert!(rt; are_terms(&terms, &wanted) && terms.get(5) == Some(wanted[5]));
    assert!(rt; terms.get(9).is_none());
    terms.clear();
    assert!(rt; terms.is_empty());
    Ok(())
}

// A document of an object, of values in fields of JSON objects, and of a text that isn't indexed.
fn with_paths(alloc: Global) -> Result<TantivyDocument, Fail> {
    let schema = schema(alloc)?;
    let json =
        "{\"json\": {\"a\": {\"b.c\": [1, null, true, [\"x\"]]}, \"d\": -1}, \"parted\": {\"a\": {\"b.c\": 9223372036854775808}}}";
    let mut document = TantivyDocument::parse_json(alloc, &schema, json)?;
    add_to_objects(&mut document)?;
    Ok(document)
}

// Adds a date and a number to the field of JSON objects, and the text that isn't indexed.
fn add_to_objects(document: &mut TantivyDocument) -> Result<(), Fail> {
    document.add_date(field(8), DateTime::from_timestamp_nanos(1_500_000_000))?;
    document.add_u64(field(8), 9_223_372_036_854_775_807)?;
    document.add_text(field(10), "not indexed")?;
    Ok(())
}

#[test]
fn json_values_have_terms_behind_paths(rt: HostRuntime) -> Result<(), Fail> {
    let document = with_paths(rt.alloc())?;
    let terms = terms_of(rt.alloc(), &document)?;
    let wanted: [&[u8]; 7] = [
        b"\0\0\0\x08ja\x01b.c\0i\x80\0\0\0\0\0\0\x01",
        b"\0\0\0\x08ja\x01b.c\0o\0\0\0\0\0\0\0\x01",
        b"\0\0\0\x08ja\x01b.c\0sx",
        b"\0\0\0\x08jd\0i\x7f\xff\xff\xff\xff\xff\xff\xff",
        b"\0\0\0\x09ja\x01b\x01c\0u\x80\0\0\0\0\0\0\0",
        b"\0\0\0\x08j\0d\x80\0\0\0\x3b\x9a\xca\0",
        b"\0\0\0\x08j\0i\xff\xff\xff\xff\xff\xff\xff\xff",
    ];
    assert!(rt; are_terms(&terms, &wanted));
    Ok(())
}

// Compares the terms that it takes with those of a list.
struct Compared<'t> {
    wanted: &'t TermList,
    taken: usize,
    is_same: bool,
}

impl<'t> Drop for Compared<'t> {
    fn drop(self) {
        let Compared {
            wanted: _,
            taken: _,
            is_same: _,
        } = self;
    }
}

impl<'t> TermVisitor for Compared<'t> {
    // Nothing is said of what it holds.
    ghost has_taken = { λ start now terms. Unit {0} };

    fn visit(&mut self, term: &[u8]) -> Result<(), AllocError> {
        self.is_same = self.is_same && self.wanted.get(self.taken) == Some(term);
        self.taken = self.taken.saturating_add(1);
        Ok(())
    }
}

// Whether the terms that are visited, of these fields or of all, are those of the list.
fn are_visited(
    alloc: Global,
    fields: Option<&[Field]>,
    document: &TantivyDocument,
    wanted: &TermList,
) -> Result<bool, Fail> {
    let schema = schema(alloc)?;
    let mut compared = Compared {
        wanted,
        taken: 0,
        is_same: true,
    };
    visit_terms(alloc, &schema, fields, document, &mut compared)?;
    Ok(compared.is_same && compared.taken == wanted.len())
}

#[test]
fn terms_are_visited_as_they_are_listed(rt: HostRuntime) -> Result<(), Fail> {
    let alloc = rt.alloc();
    let first = each_type(alloc)?;
    let second = with_paths(alloc)?;
    assert!(rt; are_visited(alloc, None, &first, &terms_of(alloc, &first)?)?);
    assert!(rt; are_visited(alloc, None, &second, &terms_of(alloc, &second)?)?);
    let fields = [field(8), field(3)];
    let mut terms = TermList::new(alloc);
    term_values_of_fields(alloc, &schema(alloc)?, &fields, &second, &mut terms)?;
    assert!(rt; terms.len() == 6 && is_among(&fields, field(3)) && !is_among(&fields, field(9)));
    assert!(rt; are_visited(alloc, Some(&fields), &second, &terms)?);
    assert!(rt; !are_visited(alloc, None, &second, &terms)?);
    Ok(())
}

// What is returned for a document that has a text and then what is added by `add`, and whether the list is then as it was.
fn refusal(
    alloc: Global,
    schema: &Schema,
    document: &TantivyDocument,
) -> Result<Option<TermValuesError>, Fail> {
    let mut first = TantivyDocument::new(alloc);
    first.add_text(field(0), "a")?;
    let mut terms = TermList::new(alloc);
    term_values(alloc, schema, &first, &mut terms)?;
    let refused = term_values(alloc, schema, document, &mut terms).err();
    if terms.len() == 1 && terms.get(0) == Some(b"\0\0\0\0sa".as_slice()) {
        Ok(refused)
    } else {
        Ok(None)
    }
}

// A document with the number 1 in two fields.
fn with_numbers(alloc: Global, first: Field, second: Field) -> Result<TantivyDocument, Fail> {
    let mut document = TantivyDocument::new(alloc);
    document.add_u64(first, 1)?;
    document.add_u64(second, 1)?;
    Ok(document)
}

// A document with null in the field 0.
fn with_null(alloc: Global) -> Result<TantivyDocument, Fail> {
    let mut document = TantivyDocument::new(alloc);
    document.add_leaf_field_value(field(0), ReferenceValueLeaf::Null)?;
    Ok(document)
}

// A document with bytes in the field 9.
fn with_bytes(alloc: Global) -> Result<TantivyDocument, Fail> {
    let mut document = TantivyDocument::new(alloc);
    document.add_bytes(field(9), b"a")?;
    Ok(document)
}

// Whether a document is refused for this reason. It is dropped.
fn is_refused(
    alloc: Global,
    schema: &Schema,
    document: TantivyDocument,
    error: TermValuesError,
) -> Result<bool, Fail> {
    Ok(refusal(alloc, schema, &document)? == Some(error))
}

// Whether a key with U+0000 has no term.
fn is_nul_refused(alloc: Global, schema: &Schema) -> Result<bool, Fail> {
    let json = "{\"json\": {\"b\": 1, \"a\\u0000\": {}}}";
    let document = TantivyDocument::parse_json(alloc, schema, json)?;
    is_refused(
        alloc,
        schema,
        document,
        TermValuesError::NulInPath(field(8)),
    )
}

// Whether each document is refused that has a value of another type than its field.
fn are_types_refused(alloc: Global, schema: &Schema) -> Result<bool, Fail> {
    let wrong = with_numbers(alloc, field(1), field(2))?;
    let is_wrong = is_refused(alloc, schema, wrong, TermValuesError::WrongType(field(2)))?;
    let null = with_null(alloc)?;
    Ok(is_wrong && is_refused(alloc, schema, null, TermValuesError::WrongType(field(0)))?)
}

// Whether each document is refused that has a value without a term, or in a field that the schema lacks.
fn are_others_refused(alloc: Global, schema: &Schema) -> Result<bool, Fail> {
    let unknown = with_numbers(alloc, field(1), field(11))?;
    let is_unknown = is_refused(
        alloc,
        schema,
        unknown,
        TermValuesError::UnknownField(field(11)),
    )?;
    let bytes = with_bytes(alloc)?;
    Ok(is_unknown && is_refused(alloc, schema, bytes, TermValuesError::NoJsonTerm(field(9)))?)
}

#[test]
fn refusals_leave_the_list(rt: HostRuntime) -> Result<(), Fail> {
    let alloc = rt.alloc();
    let schema = schema(alloc)?;
    assert!(rt; are_types_refused(alloc, &schema)?);
    assert!(rt; are_others_refused(alloc, &schema)? && is_nul_refused(alloc, &schema)?);
    Ok(())
}

// A document with the text `end` in the field 8, within 50,000 arrays and as many objects.
fn deep(alloc: Global) -> Result<TantivyDocument, Fail> {
    let mut builder = TreeBuilder::new(TantivyDocument::new(alloc));
    open_lists(&mut builder)?;
    builder.leaf(ReferenceValueLeaf::Str("end"))?;
    builder.finish(field(8))?;
    Ok(builder.into_doc())
}

// Opens an array and in it an object with a key, 50,000 times.
fn open_lists(builder: &mut TreeBuilder) -> Result<(), Fail> {
    for _ in 0..50_000 {
        builder.open_array(1)?;
        builder.open_object(1)?;
        builder.key("k")?;
    }
    Ok(())
}

#[test]
fn deep_values_have_terms(rt: HostRuntime) -> Result<(), Fail> {
    let document = deep(rt.alloc())?;
    let terms = terms_of(rt.alloc(), &document)?;
    // The field and the type, 50,000 keys with 49,999 bytes between them, the end of the path, and the text with its type.
    assert!(rt;
        terms.len() == 1 && terms.get(0).map_or(0, |term| term.len()) == 5 + 99_999 + 1 + 4
    );
    Ok(())
}
