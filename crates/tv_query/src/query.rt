//! Queries.

ghost use Rattle.std.specs.Prelude.{◌≡◌, ◌≢◌, ◌<◌, ◌++◌, ◌∷◌, ◌||◌, [], ℕ, length, IfErr, IfOk, List, OnOk};
ghost use Rattle.std.proofs.Props.{props};
ghost use Rattle.std.specs.Char.{is_ascii_whitespace};
ghost use Rattle.tv_indexing.specs.DocumentTerms.{is_among};
ghost use Rattle.tv_indexing.specs.Tells.{Tells};
ghost use Rattle.tv_query.specs.Fields.{AreDistinct, names_field, step_names};
ghost use Rattle.tv_query.specs.Grammar.{QueryTree, WritesQuery, any, steps_of};
ghost use Rattle.tv_query.specs.Parsing.{IsAt, state_of};
ghost use Rattle.tv_query.specs.Refusals.{Refuses, RefusesRest, TakesMemoryAfter};
ghost use Rattle.tv_query.specs.Tokens.{BeginsWithToken, BeginsWithout, QueryToken, WritesTokens, token_of};
ghost use Rattle.tv_query.specs.declared.query_error.QueryReason.TheVariants.{Memory};

use crate::parser::Parser;
use crate::query_error::{QueryError, QueryReason};
use crate::selection::Selection;
use crate::token::next_token;
use std::alloc::{AllocError, Global};
use tv_indexing::is_among;
use tv_schema::Schema;
use tv_value::Field;

/// A step of a query. Each has its truth after those of its operands.
#[derive(Drop)]
pub enum Step {
    /// Whether the document has one of these terms.
    Clause(Selection),
    /// The truth of the step before, turned round.
    Not,
    /// Whether both are true.
    And,
    /// Whether one is true.
    Or,
}

/// Which documents are wanted, by their terms. (Not in tantivy, whose queries search an index.)
pub struct Query {
    pub(crate) steps: Vec<Step>,
    fields: Vec<Field>,
    ghost named: { (number : ℕ) → is_among fields.items number ≡ names_field steps.items number },
    ghost distinct: { AreDistinct fields.items } by { Prim.hlevel props },
}

impl Drop for Query {
    fn drop(self) {
        let Query {
            steps: _,
            fields: _,
        } = self;
    }
}

// Adds the field of a clause's step, unless it is there.
fn add_field(fields: &mut Vec<Field>, step: &Step) -> Result<(), AllocError>
    ensures named { OnOk result ((number : ℕ) → is_among fields.new.items number
        ≡ (is_among fields.old.items number || step_names number step.now)) }
    ensures distinct { AreDistinct fields.old.items → OnOk result (AreDistinct fields.new.items) }
{
    match step {
        Step::Clause(selection) => {
            let field = selection.field();
            if is_among(fields.as_slice(), field) {
                return Ok(());
            }
            fields.push(field)?;
            Ok(())
        }
        Step::Not | Step::And | Step::Or => Ok(()),
    }
}

// The fields of the clauses among these steps, each once.
fn fields_of(alloc: Global, steps: &[Step]) -> Result<Vec<Field>, AllocError>
    ensures named { IfOk result (λ fields. (number : ℕ)
        → is_among fields.items number ≡ names_field steps.now number) }
    ensures distinct { IfOk result (λ fields. AreDistinct fields.items) }
{
    let mut fields = Vec::new(alloc);
    for step in steps {
        add_field(&mut fields, step)?;
    }
    Ok(fields)
}

// Takes the token with which the text begins, and returns the rest. It begins with no white space.
fn take_first<'q>(
    alloc: Global,
    schema: &Schema,
    parser: &mut Parser,
    text: &'q str,
) -> Result<&'q str, QueryReason>
    requires some { text.now ≢ [] }
    requires no_space { BeginsWithout is_ascii_whitespace text.now }
    ensures made { (tokens : List QueryToken) (depth : ℕ)
        → IsAt schema.now parser.old tokens depth
        → IfOk result (λ rest. (token : QueryToken) × BeginsWithToken text.now token rest.now
        × ((next : ℕ) × IsAt schema.now parser.new (tokens ++ token ∷ []) next)) }
    ensures shorter { IfOk result (λ rest. length rest.now < length text.now) }
    ensures refused { (tokens : List QueryToken) (depth : ℕ)
        → IsAt schema.now parser.old tokens depth
        → IfErr result (Tells Memory (TakesMemoryAfter schema.now tokens)
        (RefusesRest schema.now (state_of parser.old depth) text.now)) }
{
    match next_token(text) {
        Ok((token, rest)) => match parser.take(alloc, schema, token) {
            Ok(()) => Ok(rest),
            Err(reason) => Err(reason),
        },
        Err(reason) => Err(reason),
    }
}

impl Query {
    // The query of these steps.
    pub(crate) fn of_steps(alloc: Global, steps: Vec<Step>) -> Result<Query, AllocError>
        ensures { IfOk result (λ query. query.steps ≡ steps) }
    {
        let fields = fields_of(alloc, steps.as_slice())?;
        Ok(Query { steps, fields })
    }

    /// The fields that the query's paths name, each once.
    pub fn fields(&self) -> &[Field]
        ensures named { (number : ℕ)
            → is_among result.now number ≡ names_field self.now.steps.items number }
        ensures distinct { AreDistinct result.now }
    {
        self.fields.as_slice()
    }

    /// The query that a text writes.
    ///
    /// It is clauses with `AND`, `OR`, `NOT` and parentheses: `NOT` binds most, then `AND`, then `OR`. A clause is `PATH:WHAT`, with nothing
    /// between. The path is a bare word or a text in quotes, `"` or `'`. What stands after the colon is a bare word or a text in quotes, which
    /// wants the terms of `terms_of_text`, and in a field of facets also those below; one of these with a `*` after it, which wants the terms
    /// that begin with the first term of its text; a range in brackets, as `ranges_of_text` reads it; or `*`, which wants all terms of the path.
    ///
    /// Errors: `QueryError`, with the reason for the first token that can't stand where it does or whose clause is refused, and the place in
    /// bytes where that begins; where the text ends too early, that is its length. `Memory` has the place of the token, or of the end, for which
    /// memory was refused. It hides only a reason that takes memory to find: `Unopened` and `Unclosed` after an `AND` or `OR`, and of a clause a path
    /// that names no field, a text that is no value or no range, and bounds that run backwards in a field that isn't of JSON objects.
    pub fn parse(alloc: Global, schema: &Schema, text: &str) -> Result<Query, QueryError>
        ensures made { IfOk result (λ query. (tokens : List QueryToken) × (tree : QueryTree)
            × WritesTokens text.now tokens × WritesQuery schema.now any tokens tree
            × (query.steps.items ≡ steps_of tree)) }
        ensures refused { IfErr result (Refuses schema.now text.now) }
    {
        let mut parser = Parser::new(alloc);
        let mut rest = text.trim_ascii_start();
        while !rest.is_empty() {
            match take_first(alloc, schema, &mut parser, rest) {
                Ok(after) => rest = after.trim_ascii_start(),
                Err(reason) => {
                    let place = text.len() - rest.len();
                    return Err(QueryError { place, reason });
                }
            }
        }
        match parser.finish(alloc) {
            Ok(query) => Ok(query),
            Err(reason) => {
                let place = text.len();
                Err(QueryError { place, reason })
            }
        }
    }
}
