//! Tokens of a query, taken one by one.

ghost use Rattle.std.specs.Prelude.{◌≡◌, ◌++◌, ◌∷◌, [], ℕ, false, IfErr, IfOk, List, MatchBool, OnErr, OnOk};
ghost use Rattle.tv_field.specs.Entry.{Entry};
ghost use Rattle.tv_query.specs.Grammar.{QueryTree, WritesQuery, any, factor, steps_of, wants_operand, wants_operator};
ghost use Rattle.tv_query.specs.Parsing.{Awaits, EndsWithout, Follows, FollowsAll, FollowsAny, IsAt, state_of};
ghost use Rattle.tv_indexing.specs.Tells.{Tells};
ghost use Rattle.tv_query.specs.Refusals.{HaveOperator, RefusesEnd, RefusesTaken, TakesMemoryAfter};
ghost use Rattle.tv_query.specs.Selections.{Selects};
ghost use Rattle.tv_query.specs.Tokens.{QueryToken, WantedText, and_word, clause, closed, or_word, token_of};
ghost use Rattle.tv_query.specs.declared.query_error.QueryReason.TheVariants.{Memory, Unopened};
ghost use Rattle.tv_query.specs.declared.parser.Operator.TheVariants.{Not};

use crate::query::{Query, Step};
use crate::query_error::QueryReason;
use crate::selection::Selection;
use crate::token::Token;
use std::alloc::{AllocError, Global};
use tv_schema::Schema;

/// What waits for an operand.
#[derive(Clone, Copy, PartialEq, Eq)]
pub enum Operator {
    /// `(`.
    Open,
    /// `NOT`.
    Not,
    /// `AND`, whose first operand is written.
    And,
    /// `OR`, whose first operand is written.
    Or,
}

/// The steps so far, and the operators that wait for an operand, the innermost last.
#[derive(Drop)]
pub struct Parser {
    steps: Vec<Step>,
    operators: Vec<Operator>,
    wants_operand: bool,
}

// Takes this operator off the end, if it stands there.
fn take_off(operators: &mut Vec<Operator>, operator: Operator) -> bool
    ensures { MatchBool result (operators.old.items ≡ operators.new.items ++ operator ∷ [])
        ((operators.new.items ≡ operators.old.items) × EndsWithout operator operators.old.items) }
{
    match operators.last() {
        Some(last) if *last == operator => {
            operators.truncate(operators.len() - 1);
            true
        }
        _ => false,
    }
}

impl Parser {
    /// A parser that has taken no token. It takes no memory.
    pub fn new(alloc: Global) -> Parser
        ensures { (schema : List Entry) → IsAt schema result [] 0 }
    {
        Parser {
            steps: Vec::new(alloc),
            operators: Vec::new(alloc),
            wants_operand: true,
        }
    }

    // Writes the `NOT`s that waited for the operand which has just come.
    fn end_operand(&mut self) -> Result<(), AllocError>
        ensures { (schema : List Entry) (tokens : List QueryToken) (depth : ℕ)
            → Follows schema factor self.old.operators.items tokens self.old.steps.items depth
            → OnOk result ((self.new.wants_operand ≡ false) × IsAt schema self.new tokens depth) }
    {
        while take_off(&mut self.operators, Operator::Not) {
            self.steps.push(Step::Not)?;
        }
        self.wants_operand = false;
        Ok(())
    }

    // Writes the `AND` that waited for the operand.
    fn write_and(&mut self) -> Result<(), AllocError>
        ensures written { (schema : List Entry) (tokens : List QueryToken) (depth : ℕ)
            → Follows schema factor self.old.operators.items tokens self.old.steps.items depth
            → EndsWithout Not self.old.operators.items
            → OnOk result (FollowsAll schema self.new tokens depth) }
        ensures memory { (schema : List Entry) (tokens : List QueryToken) (depth : ℕ)
            → Follows schema factor self.old.operators.items tokens self.old.steps.items depth
            → OnErr result (HaveOperator tokens) }
        ensures wants_operand { self.new.wants_operand ≡ self.old.wants_operand }
    {
        if take_off(&mut self.operators, Operator::And) {
            self.steps.push(Step::And)?;
        }
        Ok(())
    }

    // Writes the `AND` and the `OR` that waited for the operand.
    fn write_or(&mut self) -> Result<(), AllocError>
        ensures written { (schema : List Entry) (tokens : List QueryToken) (depth : ℕ)
            → Follows schema factor self.old.operators.items tokens self.old.steps.items depth
            → EndsWithout Not self.old.operators.items
            → OnOk result (FollowsAny schema self.new tokens depth) }
        ensures memory { (schema : List Entry) (tokens : List QueryToken) (depth : ℕ)
            → Follows schema factor self.old.operators.items tokens self.old.steps.items depth
            → EndsWithout Not self.old.operators.items
            → OnErr result (HaveOperator tokens) }
        ensures wants_operand { self.new.wants_operand ≡ self.old.wants_operand }
    {
        self.write_and()?;
        if take_off(&mut self.operators, Operator::Or) {
            self.steps.push(Step::Or)?;
        }
        Ok(())
    }

    // Puts an operator last, which waits for an operand.
    fn wait(&mut self, operator: Operator) -> Result<(), AllocError>
        ensures { (schema : List Entry) (tokens : List QueryToken) (depth : ℕ)
            → Awaits schema (self.old.operators.items ++ operator ∷ []) tokens
            self.old.steps.items depth
            → OnOk result (IsAt schema self.new tokens depth) }
    {
        self.operators.push(operator)?;
        self.wants_operand = true;
        Ok(())
    }

    // Adds the step of a clause.
    fn add_clause(&mut self, selection: Selection) -> Result<(), AllocError>
        ensures { (schema : List Entry) (tokens : List QueryToken) (depth : ℕ) (path : List ℕ)
            (wanted : WantedText) → Selects schema path wanted selection
            → Awaits schema self.old.operators.items tokens self.old.steps.items depth
            → OnOk result ((self.new.wants_operand ≡ false)
            × IsAt schema self.new (tokens ++ clause path wanted ∷ []) depth) }
    {
        self.steps.push(Step::Clause(selection))?;
        self.end_operand()
    }

    // Takes a token where an operand is wanted.
    fn take_operand(
        &mut self,
        alloc: Global,
        schema: &Schema,
        token: Token<'_>,
    ) -> Result<(), QueryReason>
        ensures made { (tokens : List QueryToken) (depth : ℕ)
            → Awaits schema.now self.old.operators.items tokens self.old.steps.items depth
            → OnOk result ((next : ℕ)
            × IsAt schema.now self.new (tokens ++ token_of token.entry ∷ []) next) }
        ensures refused { (tokens : List QueryToken) (depth : ℕ)
            → IfErr result (Tells Memory (TakesMemoryAfter schema.now tokens)
            (RefusesTaken schema.now (wants_operand depth) (token_of token.entry))) }
    {
        match token {
            Token::Open => Ok(self.wait(Operator::Open)?),
            Token::Not => Ok(self.wait(Operator::Not)?),
            Token::Clause { path, wanted } => match Selection::of(alloc, schema, path, wanted) {
                Ok(selection) => Ok(self.add_clause(selection)?),
                Err(reason) => Err(reason),
            },
            Token::Close | Token::And | Token::Or => Err(QueryReason::NoOperand),
        }
    }

    // Takes a `)`, after which no `NOT` waits for what is in the parentheses.
    fn take_close(&mut self) -> Result<(), QueryReason>
        ensures made { (schema : List Entry) (tokens : List QueryToken) (depth : ℕ)
            → Follows schema factor self.old.operators.items tokens self.old.steps.items depth
            → EndsWithout Not self.old.operators.items
            → OnOk result ((next : ℕ) × IsAt schema self.new (tokens ++ closed ∷ []) next) }
        ensures refused { (schema : List Entry) (tokens : List QueryToken) (depth : ℕ)
            → Follows schema factor self.old.operators.items tokens self.old.steps.items depth
            → EndsWithout Not self.old.operators.items
            → IfErr result (Tells Memory (λ e. HaveOperator tokens)
            (λ e. (e ≡ Unopened) × (depth ≡ 0))) }
    {
        self.write_or()?;
        if !take_off(&mut self.operators, Operator::Open) {
            return Err(QueryReason::Unopened);
        }
        Ok(self.end_operand()?)
    }

    // Takes `AND`.
    fn take_and(&mut self) -> Result<(), AllocError>
        ensures { (schema : List Entry) (tokens : List QueryToken) (depth : ℕ)
            → Follows schema factor self.old.operators.items tokens self.old.steps.items depth
            → EndsWithout Not self.old.operators.items
            → OnOk result (IsAt schema self.new (tokens ++ and_word ∷ []) depth) }
    {
        self.write_and()?;
        self.wait(Operator::And)
    }

    // Takes `OR`.
    fn take_or(&mut self) -> Result<(), AllocError>
        ensures { (schema : List Entry) (tokens : List QueryToken) (depth : ℕ)
            → Follows schema factor self.old.operators.items tokens self.old.steps.items depth
            → EndsWithout Not self.old.operators.items
            → OnOk result (IsAt schema self.new (tokens ++ or_word ∷ []) depth) }
    {
        self.write_or()?;
        self.wait(Operator::Or)
    }

    // Takes a token where an operator is wanted.
    fn take_operator(&mut self, token: Token<'_>) -> Result<(), QueryReason>
        ensures made { (schema : List Entry) (tokens : List QueryToken) (depth : ℕ)
            → Follows schema factor self.old.operators.items tokens self.old.steps.items depth
            → EndsWithout Not self.old.operators.items
            → OnOk result ((next : ℕ)
            × IsAt schema self.new (tokens ++ token_of token.entry ∷ []) next) }
        ensures refused { (schema : List Entry) (tokens : List QueryToken) (depth : ℕ)
            → Follows schema factor self.old.operators.items tokens self.old.steps.items depth
            → EndsWithout Not self.old.operators.items
            → IfErr result (Tells Memory (TakesMemoryAfter schema tokens)
            (RefusesTaken schema (wants_operator depth) (token_of token.entry))) }
    {
        match token {
            Token::And => Ok(self.take_and()?),
            Token::Or => Ok(self.take_or()?),
            Token::Close => self.take_close(),
            Token::Open | Token::Not | Token::Clause { .. } => Err(QueryReason::NoOperator),
        }
    }

    /// Takes the next token.
    ///
    /// Errors: `NoOperand`, `NoOperator` and `Unopened`, where the token can't follow; those of `Selection::of`; or `Memory`.
    pub fn take(
        &mut self,
        alloc: Global,
        schema: &Schema,
        token: Token<'_>,
    ) -> Result<(), QueryReason>
        ensures made { (tokens : List QueryToken) (depth : ℕ)
            → IsAt schema.now self.old tokens depth
            → OnOk result ((next : ℕ)
            × IsAt schema.now self.new (tokens ++ token_of token.entry ∷ []) next) }
        ensures refused { (tokens : List QueryToken) (depth : ℕ)
            → IsAt schema.now self.old tokens depth
            → IfErr result (Tells Memory (TakesMemoryAfter schema.now tokens)
            (RefusesTaken schema.now (state_of self.old depth) (token_of token.entry))) }
    {
        if self.wants_operand {
            self.take_operand(alloc, schema, token)
        } else {
            self.take_operator(token)
        }
    }

    /// The query, once its text has ended.
    ///
    /// Errors: `NoOperand`, where an operand is wanted; `Unclosed`, where a `(` is open; or `Memory`.
    pub fn finish(self, alloc: Global) -> Result<Query, QueryReason>
        ensures made { (schema : List Entry) (tokens : List QueryToken) (depth : ℕ)
            → IsAt schema self tokens depth
            → IfOk result (λ query. (tree : QueryTree) × WritesQuery schema any tokens tree
            × (query.steps.items ≡ steps_of tree)) }
        ensures refused { (schema : List Entry) (tokens : List QueryToken) (depth : ℕ)
            → IsAt schema self tokens depth
            → IfErr result (Tells Memory (TakesMemoryAfter schema tokens)
            (RefusesEnd (state_of self depth))) }
    {
        let mut parser = self;
        if parser.wants_operand {
            return Err(QueryReason::NoOperand);
        }
        parser.write_or()?;
        if !parser.operators.as_slice().is_empty() {
            return Err(QueryReason::Unclosed);
        }
        let Parser {
            steps,
            operators: _,
            wants_operand: _,
        } = parser;
        Ok(Query::of_steps(alloc, steps)?)
    }
}
