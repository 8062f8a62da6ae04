//! What callbacks were asked, in order, in words that they share with their test.

use jc_model::OutOfMemory;
use std::alloc::Global;
use std::sync::Arc;
use std::sync::atomic::{AtomicU64, Ordering};

/// A text, of which the last eight bytes count.
#[derive(Clone, Copy)]
pub struct Text {
    word: u64,
}

impl Text {
    /// Of more than eight bytes the last eight.
    pub fn of(bytes: &[u8]) -> Text {
        Text { word: 0 }.and(bytes)
    }

    /// The text with these bytes after it.
    pub fn and(self, bytes: &[u8]) -> Text {
        let mut word = self.word;
        for byte in bytes {
            word = word.wrapping_mul(256).wrapping_add(*byte as u64);
        }
        Text { word }
    }
}

/// Texts, one a word.
#[derive(Drop)]
pub struct Log {
    words: Arc<Vec<AtomicU64>>,
    count: Arc<AtomicU64>,
}

impl Log {
    /// Nothing was noted yet; there is room for so many texts.
    pub fn new(alloc: Global, room: u32) -> Result<Log, OutOfMemory> {
        let mut words = Vec::new(alloc);
        for _ in 0..room {
            words.push(AtomicU64::new(0))?;
        }
        let words = Arc::new(alloc, words)?;
        let count = Arc::new(alloc, AtomicU64::new(0))?;
        Ok(Log { words, count })
    }

    /// A further handle of the same words.
    pub fn share(&self) -> Result<Log, OutOfMemory> {
        let words = Arc::try_clone(&self.words)?;
        let count = Arc::try_clone(&self.count)?;
        Ok(Log { words, count })
    }

    /// Adds a text, from any thread. Beyond the room it is counted, and not kept.
    pub fn note(&self, text: Text) {
        let place = self.count.fetch_add(1, Ordering::SeqCst);
        if let Some(word) = self.words.get(place as usize) {
            word.store(text.word, Ordering::SeqCst);
        }
    }

    /// How many texts were noted, those beyond the room with them.
    pub fn count(&self) -> u64 {
        self.count.load(Ordering::SeqCst)
    }

    /// The texts that were noted, each with a space after it.
    pub fn text(&self, alloc: Global) -> Result<Vec<u8>, OutOfMemory> {
        let mut text = Vec::new(alloc);
        for word in self.words.iter().take(self.count() as usize) {
            for byte in word.load(Ordering::SeqCst).to_be_bytes() {
                if byte != 0 {
                    text.push(byte)?;
                }
            }
            text.push(b' ')?;
        }
        Ok(text)
    }
}
