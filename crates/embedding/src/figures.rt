//! A recursive type of your own.

ghost use Rattle.embedding.specs.Figures.{IsFigures, AreFigures, NoFigures, NoneAreFigures};
ghost use Rattle.embedding.specs.Figures.{FiguresRefused, figures_exclude};
ghost use Rattle.std.specs.Prelude.{IfOk, MatchOption, map};
ghost use Rattle.tantivy_schema.specs.Owned.{owned_tree};
ghost use Rattle.tantivy_schema.specs.Tree.{elements};

use std::alloc::{AllocError, Global};
use tantivy_schema::common::ByteSource;
use tantivy_schema::schema::OwnedValue;
use tantivy_schema::schema::document::{
    BinaryValueDeserializer, DeserializeError, ValueDeserialize,
};

/// Numbers from 0 to 2^64 - 1, in lists of any depth. In a store it is such a number, or an array of figures. Any other value is
/// refused as `Custom`, once it was read.
#[derive(Debug, Drop)]
pub enum Figures {
    /// A number.
    One(u64),
    /// A list.
    Many(Vec<Figures>),
}

// What a value is; `None` where it isn't made of numbers and lists alone.
#[cycle(figures)]
fn figures_of(alloc: Global, value: &OwnedValue) -> Result<Option<Figures>, AllocError>
    ensures { IfOk result (λ made. MatchOption made (NoFigures (owned_tree value.now))
        (λ x. IsFigures (owned_tree value.now) x)) }
{
    match value {
        OwnedValue::U64(number) => Ok(Some(Figures::One(*number))),
        OwnedValue::Array(items) => match all_figures(alloc, items)? {
            Some(made) => Ok(Some(Figures::Many(made))),
            None => Ok(None),
        },
        _ => Ok(None),
    }
}

// The same of each value of a list.
#[cycle(figures)]
fn all_figures(alloc: Global, items: &Vec<OwnedValue>) -> Result<Option<Vec<Figures>>, AllocError>
    ensures { IfOk result (λ made. MatchOption made
        (NoneAreFigures (elements (map owned_tree items.now.items)))
        (λ xs. AreFigures (elements (map owned_tree items.now.items)) xs.items)) }
{
    let mut made = Vec::new(alloc);
    for item in items {
        match figures_of(alloc, item)? {
            Some(figures) => made.push(figures)?,
            None => return Ok(None),
        }
    }
    Ok(Some(made))
}

impl ValueDeserialize for Figures {
    ghost is = { IsFigures };

    ghost refused = { FiguresRefused };

    fn deserialize<S: ByteSource>(
        alloc: Global,
        deserializer: BinaryValueDeserializer<'_, S>,
    ) -> Result<Figures, DeserializeError> {
        let value = deserializer.deserialize_tree(alloc)?;
        match figures_of(alloc, &value)? {
            Some(figures) => Ok(figures),
            None => {
                let message = String::from_str(alloc, "neither a number nor a list of figures")?;
                Err(DeserializeError::custom(message))
            }
        }
    }

    ghost excludes = { figures_exclude };
}
