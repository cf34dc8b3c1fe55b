//! Laws of documents, each the contract of a function that does nothing.

ghost use Rattle.std.specs.Prelude.{◌≡◌, ◌⊎◌, ℕ, List, IfErr, IfOk, IsErrOf, Option, Result};
ghost use Rattle.serde_json.specs.Data.{Members};
ghost use Rattle.tv_builder.specs.declared.errors.BuildError.TheVariants.{HeapFull, Memory};
ghost use Rattle.tv_field.specs.Entry.{Entry};
ghost use Rattle.tv_format.specs.Short.{IsDocument};
ghost use Rattle.tv_json.specs.declared.json_fault.JsonFault.{JsonFault};
ghost use Rattle.tv_format.specs.Tree.{Document as Pairs, Tree};
ghost use Rattle.tv_doc.specs.TextFault.{TellsFault};
ghost use Rattle.tv_doc.specs.declared.document.CompactDoc.{CompactDoc};
ghost use Rattle.tv_doc.specs.declared.builder.TreeBuilder.{TreeBuilder};
ghost use Rattle.tv_doc.specs.Additions.{Addition, AddsAsBuilt, AreKept};
ghost use Rattle.tv_doc.specs.Alike.{AreAlike, AreStrictlyAlike};
ghost use Rattle.tv_doc.specs.JsonObject.{MakesFromObject, ParsesDocument, ParsesInto};
ghost use Rattle.tv_doc.specs.StrictJson.{ParsesStrictDocument, ParsesStrictInto};
ghost use Rattle.tv_doc.specs.declared.errors.DocParsingError.{DocParsingError};
ghost use Rattle.tv_doc.specs.declared.errors.StrictParsingError.{StrictParsingError};
ghost use Rattle.tv_doc.specs.Builder.{HoldsState};
ghost use Rattle.tv_doc.specs.Document.{document_of, IsFull, IsWithinRoom, IsWrittenInOrder};
ghost use Rattle.tv_doc.specs.Grouped.{IsGrouped};
ghost use Rattle.tv_doc.specs.Named.{IsJsonText, IsNamed, Named};
ghost use Rattle.tv_doc.specs.InPlace.{in_place};
ghost use Rattle.tv_doc.specs.NamedPairs.{ConvertsBack, ConvertsNamed, KeepsNamed};

use crate::builder::{BuildError, TreeBuilder};
use crate::document::CompactDoc;
use crate::document_trait::Document;
use crate::errors::NamedBackError;
use std::alloc::Global;
use tv_json::laws::syntax_faults_are_unique;
use tv_schema::Schema;
use tv_schema::laws::names_are_of_one_field;
use tv_value::field::Field;
use tv_value::value::Value;

/// Each document has an encoding in the store: its fields are numbers below 2^32, and its numbers, texts and lists fit.
pub fn documents_are_valid()
    ensures { (d : CompactDoc) → IsDocument (document_of d) }
{}

/// A document's heap is what writing the trees of its pairs one after the other gives. So documents of the same pairs have the same heap, byte
/// for byte, however they were made.
pub fn heaps_are_written_in_order()
    ensures { (d : CompactDoc) → IsWrittenInOrder d }
{}

/// A document's heap takes at most the room of its values.
pub fn heaps_are_within_room()
    ensures { (d : CompactDoc) → IsWithinRoom d }
{}

/// Of additions to a document, one after the other, refused ones among them, each leaves what its answer says, and all of
/// them: the accepted pairs stand in order after those that were there, and what stood in the heap stands there still.
pub fn additions_are_kept()
    ensures { (additions : List Addition) (old new : CompactDoc) → AreKept additions old new }
{}

/// The values by name of a document, as pairs again: each field of the schema has the values that it has in the document, in their order,
/// and nothing else has a value. So where each pair's field is one of the schema, they are the document's pairs, those of each field in order.
pub fn named_values_make_the_same_pairs()
    ensures { (schema : List Entry) (d : Pairs) (named : Named) → KeepsNamed schema d named }
{
    names_are_of_one_field();
}

/// What `convert_named_doc` makes of what `to_named_doc` makes of a document: each field of the schema has its values in their order, and
/// each pair's field is one of the schema. Errors: `Named(TooDeep)` only where a value of a field of the schema nests deeper than
/// `MAX_DEPTH` lists, `Converted(Add(HeapFull))` only where the document's own values need more room than 4294967295 bytes, and `Named(Memory)`
/// and `Converted(Memory)` where memory was refused.
pub fn named_documents_are_converted_back(
    alloc: Global,
    schema: &Schema,
    document: &CompactDoc,
) -> Result<CompactDoc, NamedBackError>
    ensures { ConvertsBack schema.now (document_of document.now) result }
{
    names_are_of_one_field();
    let _names_are_distinct = schema.num_fields();
    let named = document.to_named_doc(alloc, schema)?;
    let back = CompactDoc::convert_named_doc(alloc, schema, &named)?;
    Ok(back)
}

/// All of a builder's state stands in its heap: after the finished pairs its bytes are those of the state, and the complete tree reads at its
/// place. The heap takes at most the room of the pairs and of what is written.
pub fn builders_hold_their_state()
    ensures { (b : TreeBuilder) → HoldsState b }
{}

/// A value that is built whole and finished leaves what its addition leaves: the same heap, byte for byte, and the same pairs at the same
/// places. The first document is made by the addition, the second by the builder.
///
/// Errors: `HeapFull`, only where the heap has no room for the value, and `Memory`.
pub fn built_values_are_as_added<'a, V: Value<'a>>(
    document: &CompactDoc,
    field: Field,
    value: &V,
) -> Result<(CompactDoc, CompactDoc), BuildError>
    ensures made { IfOk result
        (λ made. AddsAsBuilt document.now field.id (V.tree value.now) made.0 made.1) }
    ensures no_room { IsErrOf result HeapFull → IsFull document.now (V.tree value.now) }
    ensures errors { IfErr result (λ error. (error ≡ HeapFull) ⊎ (error ≡ Memory)) }
{
    let mut added = document.try_clone()?;
    added.add_field_value(field, value)?;
    let mut builder = TreeBuilder::new(document.try_clone()?);
    builder.tree(value)?;
    builder.finish(field)?;
    Ok((added, builder.into_doc()))
}

/// A document has one list of its values by field, one list of its values by name, and one text of JSON.
pub fn documents_are_listed_in_one_way()
    ensures grouped { (document : Pairs) (groups others : List (ℕ × List Tree))
        → IsGrouped document groups → IsGrouped document others → groups ≡ others }
    ensures named { (names : List (List ℕ)) (document : Pairs) (named other : Named)
        → IsNamed names document named → IsNamed names document other → named ≡ other }
    ensures printed { (names : List (List ℕ)) (document : Pairs) (text other : List ℕ)
        → IsJsonText names document text → IsJsonText names document other → text ≡ other }
{}

/// The values of an object make one document, by one schema, or have one first refusal: of two outcomes, neither of which is for want of memory,
/// both are documents of the same pairs, or both are errors that say the same.
pub fn objects_make_one_document()
    ensures { (schema : List Entry) (members : Members)
        (one other : Result CompactDoc DocParsingError) → MakesFromObject schema members one
        → MakesFromObject schema members other → AreAlike one other }
{}

/// A text of JSON makes one document, too, whether it is returned or left in the place of another.
pub fn texts_make_one_document()
    ensures returned { (schema : List Entry) (text : List ℕ)
        (one other : Result CompactDoc DocParsingError) → ParsesDocument schema text one
        → ParsesDocument schema text other → AreAlike one other }
    ensures left { (schema : List Entry) (text : List ℕ) (new twin : CompactDoc)
        (one other : Result (Unit {0}) DocParsingError) → ParsesInto schema text new one
        → ParsesInto schema text twin other → AreAlike (in_place one new) (in_place other twin) }
{}

/// The same where each key of the object has to name a field, and none may stand twice.
pub fn strict_texts_make_one_document()
    ensures returned { (schema : List Entry) (text : List ℕ)
        (one other : Result CompactDoc StrictParsingError) → ParsesStrictDocument schema text one
        → ParsesStrictDocument schema text other → AreStrictlyAlike one other }
    ensures left { (schema : List Entry) (text : List ℕ) (new twin : CompactDoc)
        (one other : Result (Unit {0}) StrictParsingError) → ParsesStrictInto schema text new one
        → ParsesStrictInto schema text twin other
        → AreStrictlyAlike (in_place one new) (in_place other twin) }
{}

/// And so do values by name.
pub fn values_by_name_make_one_document()
    ensures { (schema : List Entry) (named : Named) (one other : Result CompactDoc DocParsingError)
        → ConvertsNamed schema named one → ConvertsNamed schema named other → AreAlike one other }
{}

/// A text that is no JSON object is none at one place, and for one reason.
pub fn texts_have_one_fault()
    ensures { (text : List ℕ) (one other : Option JsonFault) → TellsFault text one
        → TellsFault text other → one ≡ other }
{
    syntax_faults_are_unique();
}
