//! Texts with their tokens, read from JSON objects.

ghost use Rattle.std.specs.Prelude.{◌≡◌, option_map, option_and_then};
ghost use Rattle.serde_json.specs.View.{view as data_of, items_view};
ghost use Rattle.serde_json.specs.Find.{as_array, get};
ghost use Rattle.tv_value.specs.TokenRef.{ref_of};
ghost use Rattle.tv_field.specs.JsonTokens.{number_at as number_at_key, text_at as text_at_key, token_in, IsTokenEncoded, AreTokensEncoded, IsTokenizedEncoded};

use serde_json::Value;
use std::alloc::AllocError;
use tv_base::ByteBuffer;
use tv_value::TokenRef;
use tv_value::encode::{push_number, push_text, push_token};

// The whole number at a key.
fn number_at(json: &Value, key: &str) -> Option<u64>
    ensures { result ≡ number_at_key key.now (data_of json.now) }
{
    json.get(key).and_then(Value::as_u64)
}

// The text at a key.
fn text_at<'a>(json: &'a Value, key: &str) -> Option<&'a str>
    ensures { option_map (λ t. t.now) result ≡ text_at_key key.now (data_of json.now) }
{
    json.get(key)?.as_str()
}

// The array at a key.
fn items_at<'a>(json: &'a Value, key: &str) -> Option<&'a Vec<Value>>
    ensures { option_map (λ v. items_view v.now.items) result
        ≡ option_and_then as_array (get key.now (data_of json.now)) }
{
    json.get(key)?.as_array()
}

// The token, lent.
#[tactic(auto, unfolding(crate::specs::JsonTokens::token_in))]
fn token_at(json: &Value) -> Option<TokenRef<'_>>
    ensures { option_map ref_of result ≡ token_in (data_of json.now) }
{
    Some(TokenRef {
        offset_from: number_at(json, "offset_from")? as usize,
        offset_to: number_at(json, "offset_to")? as usize,
        position: number_at(json, "position")? as usize,
        text: text_at(json, "text")?,
        position_length: number_at(json, "position_length")? as usize,
    })
}

// Adds the encoding of a token. Returns whether the value is one.
fn push_json_token(bytes: &mut ByteBuffer, json: &Value) -> Result<bool, AllocError>
    ensures { IsTokenEncoded (data_of json.now) bytes.old.items bytes.new.items result }
{
    match token_at(json) {
        Some(token) => {
            push_token(bytes, token)?;
            Ok(true)
        }
        None => Ok(false),
    }
}

// Adds the encodings of tokens. Answers whether each item is one.
fn push_json_tokens(bytes: &mut ByteBuffer, items: &Vec<Value>) -> Result<bool, AllocError>
    ensures { AreTokensEncoded (items_view items.now.items) bytes.old.items bytes.new.items result }
{
    for item in items {
        let is_token = push_json_token(bytes, item)?;
        if !is_token {
            return Ok(false);
        }
    }
    Ok(true)
}

/// Writes the encoding of a text with its tokens, in place of what is there. Returns whether `json` is one; where it isn't, `bytes` is left
/// empty. Errors: memory was refused.
#[tactic(auto, unfolding(crate::specs::JsonTokens::tokenized_in))]
pub fn encode_tokenized(json: &Value, bytes: &mut ByteBuffer) -> Result<bool, AllocError>
    ensures { IsTokenizedEncoded (data_of json.now) bytes.new.items result }
{
    bytes.clear();
    let Some(content) = text_at(json, "text") else {
        return Ok(false);
    };
    let Some(items) = items_at(json, "tokens") else {
        return Ok(false);
    };
    push_text(bytes, content)?;
    push_number(bytes, items.len() as u64)?;
    if push_json_tokens(bytes, items)? {
        return Ok(true);
    }
    bytes.clear();
    Ok(false)
}
