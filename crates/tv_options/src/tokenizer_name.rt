//! The name of a tokenizer.

ghost use Rattle.std.specs.Prelude.{◌≡◌, IfOk, codes};

use std::alloc::{AllocError, Global};
use std::borrow::CowStr;
use std::marker::Model;

/// The name of a tokenizer: a text of its own, or one of the program. By default it is `default`.
#[derive(Debug)]
pub struct TokenizerName {
    pub(crate) text: CowStr<'static>,
}

// By hand, so that a name is dropped by one call.
impl Drop for TokenizerName {
    fn drop(self) {
        let TokenizerName { text: _ } = self;
    }
}

impl Model for TokenizerName {
    ghost use Rattle.std.specs.Prelude.{List, ℕ};
    ghost use Rattle.std.specs.Cow.{cow_str_bytes};

    ghost Value = { List ℕ };

    ghost view = { λ name. cow_str_bytes name.text };
}

impl TokenizerName {
    /// A name that stands in the program. It takes no memory.
    pub fn from_static(name: &'static str) -> TokenizerName
        ensures { result ≡ name.now }
    {
        TokenizerName {
            text: CowStr::Borrowed(name),
        }
    }

    /// A name with a text of its own. The only error is that memory is refused.
    pub fn from_name(alloc: Global, name: &str) -> Result<TokenizerName, AllocError>
        ensures { IfOk result (λ own. own ≡ name.now) }
    {
        Ok(TokenizerName {
            text: CowStr::Owned(String::from_str(alloc, name)?),
        })
    }

    /// The name as a text.
    pub fn name(&self) -> &str
        ensures { result.now ≡ self.now }
    {
        self.text.as_str()
    }

    /// The same name, with a text of its own. The only error is that memory is refused.
    pub fn try_clone(&self, alloc: Global) -> Result<TokenizerName, AllocError>
        ensures { IfOk result (λ copy. copy ≡ self.now) }
    {
        TokenizerName::from_name(alloc, self.name())
    }
}

impl Default for TokenizerName {
    ghost is_default = { λ name. name ≡ codes "default" };

    /// The name `default`.
    fn default() -> TokenizerName {
        TokenizerName::from_static("default")
    }
}

impl PartialEq for TokenizerName {
    ghost use Rattle.std.specs.Prelude.{nat_eq};
    ghost use Rattle.std.specs.Cmp.{partial_equiv_from_equiv};
    ghost use Rattle.std.specs.Cmp.Lexicographic.{pointwise, nat_list_eq_equiv};

    ghost eq = { pointwise nat_eq };

    ghost laws = { partial_equiv_from_equiv nat_list_eq_equiv };

    fn eq(&self, other: &TokenizerName) -> bool {
        self.name() == other.name()
    }
}

impl Eq for TokenizerName {
    ghost use Rattle.std.specs.Cmp.Lexicographic.{nat_list_eq_equiv};

    ghost laws = { nat_list_eq_equiv };
}
