//! The functions that C calls, by what they are about.
mod answers;
mod calls;
mod handle;
mod items;
mod looks;
mod managers;
mod many;
mod saved;
