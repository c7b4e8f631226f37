//! Members of rules in JSON. What has another type than it should counts as absent.

use serde_json::Value;

/// What a value of JSON is.
pub(crate) fn kind_of(value: &Value) -> &'static str {
    match value {
        Value::Null => "null",
        Value::Bool(_) => "true or false",
        Value::Number(_) => "a number",
        Value::String(_) => "a text",
        Value::Array(_) => "a list",
        Value::Object(_) => "an object",
    }
}

/// The text that the member is.
pub(crate) fn text<'v>(value: &'v Value, member: &str) -> Option<&'v str> {
    value.get(member)?.as_str()
}

/// The text that the member is, if it is not empty.
pub(crate) fn pattern<'v>(value: &'v Value, member: &str) -> Option<&'v str> {
    match text(value, member) {
        Some("") => None,
        text => text,
    }
}

/// Whether the member is true, a number but 0, or a text that says so.
pub(crate) fn flag(value: &Value, member: &str) -> bool {
    match value.get(member) {
        Some(Value::Bool(yes)) => *yes,
        Some(Value::String(text)) => matches!(text.as_str(), "1" | "true" | "yes"),
        Some(Value::Number(number)) => number.as_u64() != Some(0),
        _ => false,
    }
}
