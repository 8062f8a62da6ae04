//! The members of a line that creates a cache, by the rules of a configuration's.
ghost use Rattle.std.specs.Prelude.{◌≡◌};
ghost use Rattle.jc_script.specs.declared.fault.Member.TheVariants as members;
ghost use Rattle.jc_script.specs.Creating.{asks_to_create, cache_name, capacity, line_policy, creating, line_expiry_or_eternal};
ghost use Rattle.jc_script.specs.Reading.{Reads, ReadsMember, object_in};

use crate::fault::{Member, ScriptFault};
use crate::line::Line;
use crate::member::Reader;
use crate::tree::{text_in, whole_in};
use jc_config::{ExpiryKind, capacity_in, name_in, plain_cache};
use jc_model::config::Policy;
use jc_model::key::Key;

impl<'o, 'a> Reader<'o, 'a> {
    /// Whether the line creates a cache.
    pub fn asks_to_create(&self) -> bool
        ensures { result ≡ asks_to_create (object_in self.now) }
    {
        match self.member(Member::Op).and_then(text_in) {
            Some(op) => op == "create",
            None => false,
        }
    }

    /// The name of a cache to be created.
    fn cache_name(&self) -> Result<Key, ScriptFault>
        ensures { ReadsMember cache_name members.Cache self.now result }
    {
        let member = Member::Cache;
        match self.member(member).and_then(text_in) {
            None => Err(self.bad(member)),
            Some(text) => match name_in(text) {
                Some(name) => Ok(name),
                None => Err(self.bad(member)),
            },
        }
    }

    /// How many rows it may have.
    fn capacity(&self) -> Result<u32, ScriptFault>
        ensures { ReadsMember capacity members.Capacity self.now result }
    {
        let member = Member::Capacity;
        match self.member(member).and_then(whole_in) {
            None => Err(self.bad(member)),
            Some(number) => match capacity_in(number) {
                Some(rows) => Ok(rows),
                None => Err(self.bad(member)),
            },
        }
    }

    fn expiry(&self) -> Result<ExpiryKind, ScriptFault>
        ensures { Reads line_expiry_or_eternal self.now result }
    {
        let member = Member::Expiry;
        match self.member(member) {
            None => Ok(ExpiryKind::Eternal),
            Some(value) => text_in(value)
                .and_then(ExpiryKind::of)
                .ok_or(self.bad(member)),
        }
    }

    /// The members `expiry` and `duration`.
    #[tactic(auto, unfolding(crate::specs::Creating::line_policy))]
    fn policy(&self) -> Result<Policy, ScriptFault>
        ensures { Reads line_policy self.now result }
    {
        let kind = self.expiry()?;
        let member = Member::Duration;
        let duration = self.member(member).map(whole_in);
        kind.policy(duration).ok_or(self.bad(member))
    }
}

/// The line of a session that creates a cache.
#[tactic(auto, unfolding(crate::specs::Creating::creating))]
pub fn read_create(reader: &Reader<'_, '_>, session: u32) -> Result<Line, ScriptFault>
    ensures { Reads (creating session) reader.now result }
{
    let name = reader.cache_name()?;
    // Each line has a moment; a creation has no other use of it.
    let _at = reader.moment()?;
    let capacity = reader.capacity()?;
    let policy = reader.policy()?;
    let config = plain_cache(reader.alloc, name, capacity, policy);
    Ok(Line::Create { session, config })
}
