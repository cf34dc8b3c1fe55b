//! Laws of texts of JSON, each the contract of a function that does nothing.

ghost use Rattle.std.specs.Prelude.{◌≡◌, ◌↔◌, ◌+◌, ◌<◌, ℕ, List, ◌++◌, length, take, Some};
ghost use Rattle.serde_json.specs.Data.{Data};
ghost use Rattle.serde_json.specs.Read.{read, max_depth};
ghost use Rattle.tv_json.specs.Faults.{IsFaultOf, IsSyntax};
ghost use Rattle.tv_json.specs.Grammar.{IsJsonText};
ghost use Rattle.tv_json.specs.LargeNumber.{NoLargeNumber};
ghost use Rattle.tv_json.specs.declared.json_fault.JsonFault.{JsonFault};

/// A text goes wrong by the syntax of JSON at one place at most, and for one reason; and one that is JSON by its syntax nowhere.
pub fn syntax_faults_are_unique()
    ensures one { (text : List ℕ) (fault other : JsonFault) → IsFaultOf text fault
        → IsFaultOf text other → fault ≡ other }
    ensures none { (text : List ℕ) (fault : JsonFault) → IsFaultOf text fault → ¬ (IsSyntax text) }
{}

/// A text is JSON by its syntax exactly where RFC 8259's grammar derives it, with lists that nest no deeper than the limit of levels.
pub fn the_syntax_is_the_grammar()
    ensures { (text : List ℕ) → IsSyntax text ↔ IsJsonText max_depth text }
{}

/// A text that the JSON library reads is JSON by its syntax.
pub fn texts_that_are_read_have_the_syntax()
    ensures { (text : List ℕ) (d : Data) → read text ≡ Some d → IsSyntax text }
{}

/// The JSON library reads a text that is JSON by its syntax, unless a number in it is too large for a float.
pub fn texts_with_the_syntax_are_read()
    ensures { (text : List ℕ) → IsSyntax text → NoLargeNumber text
        → (value : Data) × (read text ≡ Some value) }
{}

/// Where a text goes wrong at a byte, no text that the JSON library reads begins with the bytes up to that one.
pub fn no_text_goes_on_from_a_fault()
    ensures { (text more : List ℕ) (fault : JsonFault) (d : Data) → IsFaultOf text fault
        → fault.offset < length text
        → ¬ (read (take (fault.offset + 1) text ++ more) ≡ Some d) }
{}
