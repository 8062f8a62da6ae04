//! Tests of whole runs, of what the built program can't be asked: callbacks that note what they are asked, in each way to
//! run a script; callbacks in boxes and closures; faults that no file has; callbacks of two caches side by side.
#![tactic(auto)]

#[cfg(test)]
mod callbacks;
#[cfg(test)]
mod closures;
#[cfg(test)]
mod crews;
#[cfg(test)]
mod faults;
#[cfg(test)]
mod ran;
#[cfg(test)]
mod scenes;
#[cfg(test)]
mod sessions;
#[cfg(test)]
mod ways;
