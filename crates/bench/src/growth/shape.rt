//! What there are many of, and the calls that are made on it.

use crate::growth::calls::Call;

/// What a document has many of.
#[derive(Clone, Copy)]
pub enum Shape {
    /// Values of one field.
    Values,
    /// Items of an array.
    Items,
    /// Members of an object whose keys rise.
    Rising,
    /// Members of an object whose keys fall.
    Falling,
    /// Members of an object that have one key.
    Equal,
    /// Members of an object whose keys come in no order, some of them more than once.
    Mixed,
    /// Arrays within arrays.
    Levels,
    /// Characters of a text.
    Text,
    /// Fields with a value each.
    Fields,
    /// Steps of a path.
    Steps,
    /// Lines with a document each.
    Lines,
    /// Documents one after the other.
    Documents,
    /// Terms of numbers.
    Terms,
    /// Facets.
    Facets,
    /// Letters of a key, and numbers below it.
    Keyed,
}

impl Shape {
    // The shapes, each after the name under which it is asked for.
    const NAMED: [(&'static str, Shape); 15] = [
        ("values", Shape::Values),
        ("items", Shape::Items),
        ("rising", Shape::Rising),
        ("falling", Shape::Falling),
        ("equal", Shape::Equal),
        ("mixed", Shape::Mixed),
        ("levels", Shape::Levels),
        ("text", Shape::Text),
        ("fields", Shape::Fields),
        ("steps", Shape::Steps),
        ("lines", Shape::Lines),
        ("documents", Shape::Documents),
        ("terms", Shape::Terms),
        ("facets", Shape::Facets),
        ("keyed", Shape::Keyed),
    ];

    /// The shape of this name.
    pub fn named(name: &str) -> Option<Shape> {
        for (known, shape) in Shape::NAMED {
            if known == name {
                return Some(shape);
            }
        }
        None
    }

    /// Whether a call has many of something, and the document nothing.
    pub fn is_of_calls(self) -> bool {
        matches!(
            self,
            Shape::Steps | Shape::Lines | Shape::Documents | Shape::Terms | Shape::Facets
        )
    }

    /// The calls that are made on it.
    pub fn calls(self) -> &'static [Call] {
        match self {
            Shape::Levels => &[
                Call::Read,
                Call::Serialize,
                Call::Migrate,
                Call::Print,
                Call::Compare,
                Call::Add,
                Call::Build,
                Call::Equal,
                Call::Step,
                Call::ReadInto,
                Call::Skip,
                Call::ReadFields,
                Call::BlockWithin,
                Call::TermValues,
                Call::ReadWithin,
                Call::Name,
                Call::Copy,
                Call::JsonValue,
                Call::Same,
                Call::ReadOwned,
                Call::WriteValue,
            ],
            Shape::Fields => &[
                Call::ReadSchema,
                Call::FindFields,
                Call::Parse,
                Call::Read,
                Call::Serialize,
                Call::Print,
            ],
            Shape::Text => &[Call::Read, Call::ReadSingleBytes],
            Shape::Steps => &[Call::FindPath, Call::SplitPath],
            Shape::Lines => &[Call::Run],
            Shape::Documents => &[Call::ReadBlock],
            Shape::Terms => &[Call::OrderTerms],
            Shape::Facets => &[Call::CountFacets],
            Shape::Keyed => &[Call::VisitTerms],
            Shape::Items => &[
                Call::Parse,
                Call::Read,
                Call::Serialize,
                Call::Migrate,
                Call::Print,
                Call::Compare,
                Call::Step,
                Call::ReadOwned,
            ],
            _ => &[
                Call::Parse,
                Call::Read,
                Call::Serialize,
                Call::Migrate,
                Call::Print,
                Call::Compare,
            ],
        }
    }
}
