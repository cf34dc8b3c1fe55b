//! Laws of what is read: two reads of the same bytes agree, whoever reads them. Each is the contract of a function that does nothing.
//!
//! A value that is read is one of the tree that the bytes encode, by the type's own relation, and so is one that is read again. Whether they
//! are equal is for that relation to say. Of refusals of a type nothing is said: a type of your own may allow several of the same bytes.

ghost use Rattle.tv_base.specs.Number.{VNum};
ghost use Rattle.tv_reader.specs.ValueType.{IsCoded};
ghost use Rattle.tv_typed.specs.Determined.{AreDetermined, EntriesAgree, FieldsAgree, ListsAgree, ObjectsAgree, ValuesAgree};
ghost use Rattle.tv_typed.specs.Documents.{NumberRefused};
ghost use Rattle.tv_typed.specs.Values.{CodeRefused};

use crate::de::ValueDeserialize;

/// Two values that are read of the same bytes are values of one tree, and leave the same bytes.
pub fn values_agree<V: ValueDeserialize>()
    ensures { ValuesAgree V.is }
{}

/// The same of a key and the value after it: the keys are equal.
pub fn entries_agree<V: ValueDeserialize>()
    ensures { EntriesAgree V.is }
{}

/// The same of a field and the value after it: the fields are equal.
pub fn fields_agree<V: ValueDeserialize>()
    ensures { FieldsAgree V.is }
{}

/// Two lists of this many values that are read of the same bytes are read of one array, and leave the same bytes.
pub fn lists_agree<V: ValueDeserialize>()
    ensures { ListsAgree V.is }
{}

/// The same of keys with values, which are read of one object.
pub fn objects_agree<V: ValueDeserialize>()
    ensures { ObjectsAgree V.is }
{}

/// Bytes begin with one code of a value at most, which leaves one rest. Where they are refused, they begin with none, and there is one error.
pub fn codes_are_determined()
    ensures { AreDetermined IsCoded CodeRefused }
{}

/// The same of the number of a document's pairs.
pub fn pair_counts_are_determined()
    ensures { AreDetermined VNum NumberRefused }
{}
