//! Laws of queries, each the contract of a function that does nothing.

ghost use Rattle.std.specs.Prelude.{◌≡◌, ◌≢◌, ◌↔◌, ℕ, Bool, IsTrue, List, Result};
ghost use Rattle.tv_field.specs.Entry.{Entry};
ghost use Rattle.tv_indexing.specs.Agree.{Agree};
ghost use Rattle.tv_query.specs.Grammar.{ParserState, QueryTree, WritesQuery, any};
ghost use Rattle.tv_query.specs.Matching.{Matches};
ghost use Rattle.tv_query.specs.Refusals.{Refuses, RefusesEnd, RefusesTaken};
ghost use Rattle.tv_query.specs.SameQuery.{MatchSame, SaySameError, SaySameReason, SelectSame};
ghost use Rattle.tv_query.specs.Selections.{AnswersClause};
ghost use Rattle.tv_query.specs.Tokens.{QueryToken, WantedText, WritesTokens};
ghost use Rattle.tv_query.specs.declared.query_error.QueryError.{QueryError};
ghost use Rattle.tv_query.specs.declared.query_error.QueryReason.{QueryReason};
ghost use Rattle.tv_query.specs.declared.query_error.QueryReason.TheVariants.{Memory};
ghost use Rattle.tv_query.specs.declared.selection.Selection.{Selection};

/// A text that writes a query is refused for want of memory alone: what `Query::parse` promises of a query that it makes, and of its errors, exclude
/// one another.
pub fn queries_that_are_written_are_not_refused()
    ensures { (schema : List Entry) (text : List ℕ) (tokens : List QueryToken) (tree : QueryTree)
        (error : QueryError) → WritesTokens text tokens → WritesQuery schema any tokens tree
        → error.reason ≢ Memory → ¬ Refuses schema text error }
{}

/// A text writes one query, or is refused for one reason at one place: two queries that `Query::parse` may make of a text match the same documents, and
/// two of its errors, of which neither is for want of memory, are at one place and say the same.
pub fn queries_of_texts_are_determined()
    ensures made { (schema : List Entry) (text : List ℕ) (tokens also : List QueryToken)
        (tree other : QueryTree) → WritesTokens text tokens → WritesQuery schema any tokens tree
        → WritesTokens text also → WritesQuery schema any also other → MatchSame tree other }
    ensures refused { (schema : List Entry) (text : List ℕ) (error other : QueryError)
        → Refuses schema text error → Refuses schema text other → error.reason ≢ Memory
        → other.reason ≢ Memory → SaySameError error other }
{}

/// A clause has one answer: two that `Selection::of` may give, of which neither is for want of memory, agree. Two selections want the same terms.
pub fn selections_are_determined()
    ensures { (schema : List Entry) (path : List ℕ) (wanted : WantedText)
        (one other : Result Selection QueryReason) → AnswersClause schema path wanted one
        → AnswersClause schema path wanted other → Agree SaySameReason SelectSame one other }
{}

/// A parser reads tokens in one way: the same tokens write queries that match the same documents, and a token that is refused, or the end of the
/// text, is refused for one reason.
pub fn tokens_are_read_in_one_way()
    ensures made { (schema : List Entry) (tokens : List QueryToken) (tree other : QueryTree)
        → WritesQuery schema any tokens tree → WritesQuery schema any tokens other
        → MatchSame tree other }
    ensures token { (schema : List Entry) (state : ParserState) (token : QueryToken)
        (reason other : QueryReason) → RefusesTaken schema state token reason
        → RefusesTaken schema state token other → SaySameReason reason other }
    ensures end { (state : ParserState) (reason other : QueryReason) → RefusesEnd state reason
        → RefusesEnd state other → reason ≡ other }
{}

/// The terms of a document match a query, or don't: two truths that `QueryMatcher::matches` may tell of them are the same.
pub fn matches_are_determined()
    ensures { (terms : List (List ℕ)) (tree : QueryTree) (truth other : Bool)
        → IsTrue truth ↔ Matches terms tree → IsTrue other ↔ Matches terms tree → truth ≡ other }
{}
