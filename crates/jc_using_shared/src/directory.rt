//! The directory behind the cache, and how it answers a call's requests.

use crate::fault::Fault;
use jc::{Answer, Key, OutOfMemory, ProcessorFault, Request, Responder, Value};
use std::alloc::Global;
use std::sync::{Mutex, Wait};

/// Who is known, and a note on each. It takes no empty note.
#[derive(Drop)]
pub struct Directory {
    notes: Mutex<Vec<(Key, Value)>>,
}

impl Directory {
    /// A directory that knows ann alone.
    pub fn with_ann(alloc: Global) -> Result<Directory, Fault> {
        let ann = (Key::from_text("ann")?, Value::from_text(alloc, "Ann Lee")?);
        let notes = vec![in alloc; ann]?;
        Ok(Directory {
            notes: Mutex::new(notes),
        })
    }

    /// The note on a user, if the user is known.
    pub fn note<R: Wait>(&self, rt: &R, name: &Key) -> Result<Option<Value>, OutOfMemory> {
        let notes = self.notes.lock(rt);
        for (known, note) in notes.as_slice() {
            if known == name {
                return Ok(Some(note.share()?));
            }
        }
        Ok(None)
    }

    /// Whether a note was written.
    fn write<R: Wait>(&self, rt: &R, name: &Key, note: &Value) -> Result<bool, OutOfMemory> {
        if note.bytes().is_empty() {
            return Ok(false);
        }
        let note = note.share()?;
        let mut notes = self.notes.lock(rt);
        notes.push((*name, note))?;
        Ok(true)
    }
}

/// What is lent to a call: the directory, and the handle by which it is asked.
#[derive(Drop)]
pub struct Client<'a, R> {
    pub rt: &'a R,
    pub directory: &'a Directory,
}

impl<R: Wait> Responder for Client<'_, R> {
    fn respond(&mut self, request: &Request) -> Result<Answer, OutOfMemory> {
        match request {
            Request::Load(name) => Ok(Answer::Loaded(self.directory.note(self.rt, name)?)),
            Request::Write(name, note) => Ok(if self.directory.write(self.rt, name, note)? {
                Answer::Written
            } else {
                Answer::WriteFailed
            }),
            Request::Delete(_) => Ok(Answer::WriteFailed),
            Request::Process { .. } => Ok(Answer::Processed(Err(ProcessorFault {}))),
            Request::Tell(_) => Ok(Answer::Told),
        }
    }
}
