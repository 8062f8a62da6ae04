//! Answers of callbacks, in words.

use jc_model::call::{Action, Answer, ProcessorFault, Verdict};
use jc_model::value::Value;
use std::alloc::{AllocError, Global};

/// The value with this text; nothing where it is too long.
fn value_of(alloc: Global, text: &str) -> Result<Option<Value>, AllocError> {
    let bytes = text.as_bytes().to_vec(alloc)?;
    Ok(Value::new(alloc, bytes).ok())
}

/// A processor's verdict with this answer.
fn verdict(action: Action, answer: Option<Value>) -> Answer {
    Answer::Processed(Ok(Verdict { action, answer }))
}

/// The answer of a callback that failed to do what is said.
fn failure(what: &str) -> Option<Answer> {
    if what == "loaded" {
        Some(Answer::LoadFailed)
    } else if what == "written" {
        Some(Answer::WriteFailed)
    } else if what == "processed" {
        Some(Answer::Processed(Err(ProcessorFault {})))
    } else {
        None
    }
}

/// The answer that a word gives.
fn answer_of_word(word: &str) -> Option<Answer> {
    if word == "written" {
        Some(Answer::Written)
    } else if word == "told" {
        Some(Answer::Told)
    } else if word == "kept" {
        Some(verdict(Action::Keep, None))
    } else if word == "removed" {
        Some(verdict(Action::Remove, None))
    } else {
        None
    }
}

/// The answer of a loader that found a value, or nothing.
fn loaded(alloc: Global, text: &str) -> Result<Answer, AllocError> {
    if text == "nothing" {
        Ok(Answer::Loaded(None))
    } else {
        Ok(Answer::Loaded(value_of(alloc, text)?))
    }
}

/// The answer of a processor that sets a value, and hands it back.
fn set(alloc: Global, text: &str) -> Result<Option<Answer>, AllocError> {
    match value_of(alloc, text)? {
        Some(value) => Ok(Some(verdict(Action::Set(value), value_of(alloc, text)?))),
        None => Ok(None),
    }
}

/// The answer that these words give.
pub fn answer_of(alloc: Global, words: &[&str]) -> Result<Option<Answer>, AllocError> {
    match words {
        [word] => Ok(answer_of_word(word)),
        [first, text] if *first == "loaded" => Ok(Some(loaded(alloc, text)?)),
        [first, text] if *first == "set" => set(alloc, text),
        [first, text] if *first == "kept" => {
            Ok(Some(verdict(Action::Keep, value_of(alloc, text)?)))
        }
        [first, text] if *first == "removed" => {
            Ok(Some(verdict(Action::Remove, value_of(alloc, text)?)))
        }
        [first, what] if *first == "not" => Ok(failure(what)),
        _ => Ok(None),
    }
}
