// Queries as a whole.
ghost use Rattle.meaning_query.specs.Reading.{mask_read, query_expr};
ghost use Rattle.query_tokens.specs.View.{query_tokens_of};
ghost use Rattle.frame_query.specs.Answers.{AnswersQuery};

use crate::fault::QueryFault;
use crate::grammar::query_at;
use query_tokens::{QueryToken, query_tokens};
use script_tree::Expr;
use std::alloc::Global;

// The most depth of a mask.
const MOST_DEPTH: usize = 32;

// The mask of the query that the tokens spell.
#[tactic(auto, unfolding(meaning_query::specs::Reading::mask_read, meaning_query::specs::Reading::ended, meaning_query::specs::Reading::and_then))]
fn mask_at(alloc: Global, tokens: &[QueryToken]) -> Result<Expr, QueryFault>
    ensures { AnswersQuery result (mask_read (query_tokens_of tokens.now)) }
{
    let (form, rest) = query_at(alloc, tokens, MOST_DEPTH, 0)?;
    if rest.is_empty() {
        Ok(form.mask)
    } else {
        drop(form);
        Err(QueryFault::NotQuery)
    }
}

/// The mask that a text stands for as a query, in which the empty name is the frame's.
///
/// `NotQuery` comes exactly where the text is no query, or its mask is deeper than a form of a script may be.
/// `NoMemory` where memory was refused.
#[tactic(auto, unfolding(meaning_query::specs::Reading::query_expr, meaning_query::specs::Reading::and_then))]
pub fn parse_query(alloc: Global, text: &str) -> Result<Expr, QueryFault>
    ensures { AnswersQuery result (query_expr text.now) }
{
    let Some(tokens) = query_tokens(alloc, text)? else {
        return Err(QueryFault::NotQuery);
    };
    mask_at(alloc, &tokens)
}
