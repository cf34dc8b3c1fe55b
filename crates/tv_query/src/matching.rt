//! Documents that match a query.

ghost use Rattle.std.specs.Prelude.{◌≡◌, ◌↔◌, ◌≤◌, ◌++◌, ◌∷◌, [], ℕ, Bool, false, IfOk, IsTrue, get_or, length, List, OnOk};
ghost use Rattle.tv_query.specs.Grammar.{QueryTree, steps_of};
ghost use Rattle.tv_query.specs.Matching.{AreTold, HasTaken, IsTested, IsTold, IsTruthOf, Matches};

use crate::query::{Query, Step};
use std::alloc::{AllocError, Global};
use tv_indexing::TermVisitor;

/// Says of one document after the other whether its terms match a query: it takes them, as `visit_terms` makes them. (Not in tantivy.)
///
/// Of each clause it holds whether one of the terms was wanted, and none of the terms. A clause of which one was is tested no more.
pub struct QueryMatcher<'q> {
    query: &'q Query,
    // Whether the clause at this step has wanted a term. Those past the end haven't.
    wanted: Vec<bool>,
    truths: Vec<bool>,
}

// By hand, so that a matcher is dropped by one call.
impl<'q> Drop for QueryMatcher<'q> {
    fn drop(self) {
        let QueryMatcher {
            query: _,
            wanted: _,
            truths: _,
        } = self;
    }
}

// Whether one of the terms is wanted, where that is told of those before this one.
fn test_one(step: &Step, told: bool, term: &[u8]) -> bool
    ensures { IsTested term.now step.now told result }
{
    match step {
        Step::Clause(selection) => told || selection.contains(term),
        Step::Not | Step::And | Step::Or => told,
    }
}

// Makes at least as many truths as `len`. Those that are added are false.
fn fill(wanted: &mut Vec<bool>, len: usize) -> Result<(), AllocError>
    ensures room { OnOk result (len ≤ length wanted.new.items) }
    ensures same { (k : ℕ) → get_or wanted.new.items k false ≡ get_or wanted.old.items k false }
{
    while wanted.len() < len {
        wanted.push(false)?;
    }
    Ok(())
}

// Tests a term by each clause that has wanted none so far.
fn test(steps: &[Step], wanted: &mut Vec<bool>, term: &[u8])
    requires { length steps.now ≤ length wanted.old.items }
    ensures { (terms : List (List ℕ)) → AreTold terms steps.now wanted.old.items
        → AreTold (terms ++ term.now ∷ []) steps.now wanted.new.items }
{
    for index in 0..steps.len() {
        wanted[index] = test_one(&steps[index], wanted[index], term);
    }
}

// The truth at this place, or `false` past the end.
fn told_at(wanted: &[bool], index: usize) -> bool
    ensures { result ≡ get_or wanted.now index false }
{
    match wanted.get(index) {
        Some(truth) => *truth,
        None => false,
    }
}

// Takes the last truth off the list.
fn last_truth(truths: &mut Vec<bool>) -> bool
    ensures { (before : List Bool) (a : Bool) → truths.old.items ≡ before ++ a ∷ []
        → (truths.new.items ≡ before) × (result ≡ a) }
{
    truths.pop().unwrap_or(false)
}

// The truth of a step, where that of a clause is told. Those of its operands are taken off the list.
fn truth_of(step: &Step, told: bool, truths: &mut Vec<bool>) -> bool
    ensures { (terms : List (List ℕ)) → IsTold terms step.now told
        → IsTruthOf terms step.now truths.old.items truths.new.items result }
{
    match step {
        Step::Clause(_) => told,
        Step::Not => !last_truth(truths),
        Step::And => {
            let right = last_truth(truths);
            let left = last_truth(truths);
            left && right
        }
        Step::Or => {
            let right = last_truth(truths);
            let left = last_truth(truths);
            left || right
        }
    }
}

// The truth of all steps, where those of the clauses are told. It takes no more of the machine's stack, however deep the query nests.
fn truth_of_all(steps: &[Step], wanted: &[bool], truths: &mut Vec<bool>) -> Result<bool, AllocError>
    ensures { (terms : List (List ℕ)) (tree : QueryTree) → AreTold terms steps.now wanted.now
        → steps.now ≡ steps_of tree → IfOk result (λ truth. IsTrue truth ↔ Matches terms tree) }
{
    truths.clear();
    for index in 0..steps.len() {
        let truth = truth_of(&steps[index], told_at(wanted, index), truths);
        truths.push(truth)?;
    }
    Ok(last_truth(truths))
}

impl<'q> QueryMatcher<'q> {
    /// A matcher for a query, which has taken no term. It takes no memory yet.
    pub fn new(alloc: Global, query: &'q Query) -> QueryMatcher<'q>
        ensures query { result.query.now ≡ query.now }
        ensures taken { HasTaken [] result }
    {
        QueryMatcher {
            query,
            wanted: Vec::new(alloc),
            truths: Vec::new(alloc),
        }
    }

    /// The query.
    pub fn query(&self) -> &'q Query
        ensures { result.now ≡ self.now.query.now }
    {
        self.query
    }

    /// Forgets the terms of a document, for the next. The memory stays.
    pub fn clear(&mut self)
        ensures query { self.new.query.now ≡ self.old.query.now }
        ensures taken { HasTaken [] self.new }
    {
        self.wanted.clear();
    }

    /// Whether the terms that were taken match the query.
    ///
    /// The only error is that memory was refused. However deep the query nests, it takes memory and no more of the machine's stack.
    pub fn matches(&mut self) -> Result<bool, AllocError>
        ensures truth { (terms : List (List ℕ)) (tree : QueryTree) → HasTaken terms self.old
            → self.old.query.now.steps.items ≡ steps_of tree
            → IfOk result (λ truth. IsTrue truth ↔ Matches terms tree) }
        ensures query { self.new.query.now ≡ self.old.query.now }
        ensures taken { (terms : List (List ℕ)) → HasTaken terms self.old
            → HasTaken terms self.new }
    {
        truth_of_all(
            self.query.steps.as_slice(),
            self.wanted.as_slice(),
            &mut self.truths,
        )
    }
}

impl<'q> TermVisitor for QueryMatcher<'q> {
    ghost use Rattle.std.specs.Prelude.{◌≡◌, ◌++◌, ℕ, List};
    ghost use Rattle.tv_query.specs.Matching.{AreTold};

    // The query stays, and after all terms that it had taken it has taken these.
    ghost has_taken = { λ start now terms. (now.query.now ≡ start.query.now)
        × ((before : List (List ℕ)) → AreTold before start.query.now.steps.items start.wanted.items
        → AreTold (before ++ terms) now.query.now.steps.items now.wanted.items) };

    /// Tests a term by each clause that has wanted none so far. Errors: memory was refused, for the truths of the clauses; the term isn't taken.
    fn visit(&mut self, term: &[u8]) -> Result<(), AllocError> {
        fill(&mut self.wanted, self.query.steps.len())?;
        test(self.query.steps.as_slice(), &mut self.wanted, term);
        Ok(())
    }
}
