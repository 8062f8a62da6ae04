//! Tests of what files can't give and no program is needed for. Of the table and what stands beside it: its shapes, refused
//! memory, hostile keys, lookups of its words. Of rings, and of values from outside. Of managers: refusals that no
//! configuration and no script meets, limits, sessions, lookups beside the lock; and of several that are asked as one.
#![tactic(auto)]

#[cfg(test)]
mod by_hand;
#[cfg(test)]
mod closing;
#[cfg(test)]
mod coming;
#[cfg(test)]
mod hostile;
#[cfg(test)]
mod lives;
#[cfg(test)]
mod lookups;
#[cfg(test)]
mod manager;
#[cfg(test)]
mod memory;
#[cfg(test)]
mod places;
#[cfg(test)]
mod quiet;
#[cfg(test)]
mod rings;
#[cfg(test)]
mod seeking;
#[cfg(test)]
mod shapes;
#[cfg(test)]
mod sharded;
#[cfg(test)]
mod shards;
#[cfg(test)]
mod tables;
#[cfg(test)]
mod vacated;
#[cfg(test)]
mod wearing;
