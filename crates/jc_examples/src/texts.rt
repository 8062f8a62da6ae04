//! What calls ask, as text.

use jc_model::call::{Kind, Notice, Request};
use jc_model::value::Value;
use std::alloc::{AllocError, Global};

fn kind_text(kind: Kind) -> &'static str {
    match kind {
        Kind::Created => "created",
        Kind::Updated => "updated",
        Kind::Removed => "removed",
        Kind::Expired => "expired",
    }
}

fn value_text(value: &Value) -> &str {
    str::from_utf8(value.bytes()).unwrap_or("?")
}

/// Each notice's kind and key, with a space before it.
pub fn notices_text(alloc: Global, notices: &[Notice]) -> Result<String, AllocError> {
    let mut text = String::new(alloc);
    for notice in notices {
        let one = format!(in alloc; " {} \"{}\"", kind_text(notice.kind), notice.key.text())?;
        text.push_str(one.as_str())?;
    }
    Ok(text)
}

/// What a call asks.
pub fn asked_text(alloc: Global, request: &Request) -> Result<String, AllocError> {
    match request {
        Request::Load(key) => format!(in alloc; "asks load \"{}\"", key.text()),
        Request::Write(key, value) => {
            format!(in alloc; "asks write \"{}\"=\"{}\"", key.text(), value_text(value))
        }
        Request::Delete(key) => format!(in alloc; "asks delete \"{}\"", key.text()),
        Request::Process { key, value, .. } => match value {
            Some(value) => {
                format!(in alloc; "asks process \"{}\"=\"{}\"", key.text(), value_text(value))
            }
            None => format!(in alloc; "asks process \"{}\"", key.text()),
        },
        Request::Tell(notices) => {
            format!(in alloc; "asks tell{}", notices_text(alloc, notices.items())?)
        }
    }
}
