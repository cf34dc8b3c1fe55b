//! Laws of the values of JSON that fields take, each the contract of a function that does nothing.

ghost use Rattle.std.specs.Prelude.{◌≡◌, ℕ, Bool, List, Ok};
ghost use Rattle.std.specs.declared.alloc.AllocError.{AllocError};
ghost use Rattle.serde_json.specs.Data.{Data};
ghost use Rattle.tv_field.specs.JsonTable.{Outcome, Table, TextRow};
ghost use Rattle.tv_field.specs.JsonTokens.{IsTokenizedEncoded};
ghost use Rattle.tv_field.specs.declared.field_type.FieldType.{FieldType};

/// To a field of one type, a value of JSON is one value or has one refusal. So has a text, as a query writes it. And a value of JSON either is
/// a text with tokens, and has one encoding, or it isn't.
pub fn values_have_one_outcome()
    ensures values { (field_type : FieldType) (value : Data) (one other : Outcome)
        → Table field_type value one → Table field_type value other → one ≡ other }
    ensures texts { (field_type : FieldType) (text : List ℕ) (one other : Outcome)
        → TextRow field_type text one → TextRow field_type text other → one ≡ other }
    ensures tokenized { (value : Data) (encoded other : List ℕ) (result twin : Bool)
        → IsTokenizedEncoded {E = AllocError} value encoded (Ok result)
        → IsTokenizedEncoded {E = AllocError} value other (Ok twin)
        → (result ≡ twin) × (encoded ≡ other) }
{}
