//! Why there is no document of a JSON object, or of the values of another by the names of its fields.

ghost use Rattle.std.specs.Prelude.{◌≡◌};
ghost use Rattle.tv_doc.specs.declared.errors.DocParsingError.TheVariants.{Memory};
ghost use Rattle.tv_doc.specs.declared.errors.StrictParsingError.TheVariants.{Parsing};
ghost use Rattle.tv_doc.specs.declared.errors.NamedBackError.TheVariants.{Named, Converted};

use std::alloc::AllocError;
use thiserror::Error;
use tv_builder::errors::AddError;
use tv_field::ValueParsingError;
use tv_value::copy::CopyError;

/// Why there is no document of a JSON object.
#[derive(Debug, PartialEq, Drop, Error)]
pub enum DocParsingError {
    /// The text is no JSON object. These are its first 20 characters. `text_fault` says where and why it is none.
    #[error("no JSON object: {0:?}")]
    InvalidJson(String),
    /// The value of the field with this name is refused.
    #[error("field {0:?}: {1}")]
    ValueError(String, ValueParsingError),
    /// An addition was refused for want of room: always `AddError::HeapFull`.
    #[error("{0}")]
    Add(AddError),
    /// Memory was refused, for an addition or for what the field's type makes of the value too.
    #[error("memory was refused")]
    Memory,
}

impl From<AllocError> for DocParsingError {
    ghost from_gives = { λ _ error. error ≡ Memory };

    fn from(_error: AllocError) -> DocParsingError {
        DocParsingError::Memory
    }
}

impl From<AddError> for DocParsingError {
    ghost use Rattle.tv_doc.specs.AdditionError.{addition_error};

    ghost from_gives = { λ refused error. error ≡ addition_error refused };

    fn from(refused: AddError) -> DocParsingError {
        match refused {
            AddError::Memory => DocParsingError::Memory,
            AddError::HeapFull => DocParsingError::Add(refused),
        }
    }
}

/// Why there is no document of a JSON object, each of whose keys is to name a field. (Not in tantivy.)
#[derive(Debug, PartialEq, Drop, Error)]
pub enum StrictParsingError {
    /// The text is no JSON object, a value is refused, or memory is.
    #[error("{0}")]
    Parsing(DocParsingError),
    /// No field has this name. These are its first 40 characters.
    #[error("no field has the name {0:?}")]
    UnknownKey(String),
    /// The key stood before. These are its first 40 characters.
    #[error("the key {0:?} stands twice")]
    RepeatedKey(String),
}

impl From<AllocError> for StrictParsingError {
    ghost from_gives = { λ _ error. error ≡ Parsing Memory };

    fn from(_error: AllocError) -> StrictParsingError {
        StrictParsingError::Parsing(DocParsingError::Memory)
    }
}

impl From<DocParsingError> for StrictParsingError {
    ghost from_gives = { λ refused error. error ≡ Parsing refused };

    fn from(refused: DocParsingError) -> StrictParsingError {
        StrictParsingError::Parsing(refused)
    }
}

/// Why a document isn't made by the names of its fields and converted back. (Not in tantivy.)
#[derive(Debug, PartialEq, Drop, Error)]
pub enum NamedBackError {
    /// Its values by name aren't made.
    #[error("{0}")]
    Named(CopyError),
    /// Its values by name aren't converted back.
    #[error("{0}")]
    Converted(DocParsingError),
}

impl From<CopyError> for NamedBackError {
    ghost from_gives = { λ refused error. error ≡ Named refused };

    fn from(refused: CopyError) -> NamedBackError {
        NamedBackError::Named(refused)
    }
}

impl From<DocParsingError> for NamedBackError {
    ghost from_gives = { λ refused error. error ≡ Converted refused };

    fn from(refused: DocParsingError) -> NamedBackError {
        NamedBackError::Converted(refused)
    }
}
