//! The members of a line, each as it is needed.
ghost use Rattle.std.specs.Prelude.{◌≡◌, ◌≤◌, option_map};
ghost use Rattle.serde_json.specs.Find.{get, as_bool, as_str};
ghost use Rattle.jc_model.specs.Limits.{sessions, most_processors};
ghost use Rattle.jc_script.specs.declared.fault.Member.TheVariants as members;
ghost use Rattle.jc_script.specs.declared.fault.ScriptFault.TheVariants.{Bad};
ghost use Rattle.jc_script.specs.Faults.{GivesScript};
ghost use Rattle.jc_script.specs.Member.{member_name, needed_line_member, whole_u64, whole_u64_below, key, keys, pairs, value};
ghost use Rattle.jc_script.specs.Tree.{data_in};
ghost use Rattle.jc_script.specs.Reading.{ReadsMember, object_in};

use crate::fault::{Member, ScriptFault};
use crate::item::{Item, key_in};
use crate::tree::{member_of, text_in, truth_in, whole_in};
use jc_model::key::Key;
use jc_model::keys::{Keys, Pairs};
use jc_model::limits::SESSIONS;
use jc_model::value;
use json::Value;
use std::alloc::Global;

/// Reads the members of one line, by its number and the object that it is.
#[derive(Drop)]
pub struct Reader<'o, 'a> {
    pub alloc: Global,
    pub line: usize,
    pub object: &'o Value<'a>,
}

impl<'o, 'a> Reader<'o, 'a> {
    /// The fault of a member.
    pub fn bad(&self, member: Member) -> ScriptFault
        ensures { result ≡ Bad self.now.line member }
    {
        ScriptFault::Bad {
            line: self.line,
            member,
        }
    }

    /// The line's member, if it is there.
    pub fn member(&self, member: Member) -> Option<&'o Value<'a>>
        ensures { option_map (λ v. data_in v.now) result ≡ get (member_name member) (object_in self.now) }
    {
        member_of(self.object, member.name())
    }

    /// The session's number, 0 to 63.
    pub fn session(&self) -> Result<u32, ScriptFault>
        ensures { ReadsMember (whole_u64_below sessions) members.Session self.now result }
    {
        let member = Member::Session;
        match self.member(member).and_then(whole_in) {
            Some(number) if number < SESSIONS as u64 => Ok(number as u32),
            _ => Err(self.bad(member)),
        }
    }

    /// The moment, in milliseconds.
    pub fn moment(&self) -> Result<u64, ScriptFault>
        ensures { ReadsMember whole_u64 members.At self.now result }
    {
        let member = Member::At;
        match self.member(member).and_then(whole_in) {
            Some(moment) => Ok(moment),
            None => Err(self.bad(member)),
        }
    }

    /// The name of what the line asks for.
    pub fn op(&self) -> Result<&'a str, ScriptFault>
        ensures { GivesScript (λ name. name.now) result
            (needed_line_member as_str self.now.line members.Op (object_in self.now)) }
    {
        let member = Member::Op;
        match self.member(member).and_then(text_in) {
            Some(name) => Ok(name),
            None => Err(self.bad(member)),
        }
    }

    /// A key.
    pub fn key(&self) -> Result<Key, ScriptFault>
        ensures { ReadsMember key members.Key self.now result }
    {
        let member = Member::Key;
        match self.member(member).and_then(key_in) {
            Some(key) => Ok(key),
            None => Err(self.bad(member)),
        }
    }

    /// The place of a processor among so many.
    pub fn processor(&self, processors: usize) -> Result<u8, ScriptFault>
        requires { processors ≤ most_processors }
        ensures { ReadsMember (whole_u64_below processors) members.Processor self.now result }
    {
        let member = Member::Processor;
        match self.member(member).and_then(whole_in) {
            Some(number) if number < processors as u64 => Ok(number as u8),
            _ => Err(self.bad(member)),
        }
    }

    /// Whether keys that have a row are loaded too.
    pub fn replace(&self) -> Result<bool, ScriptFault>
        ensures { ReadsMember as_bool members.Replace self.now result }
    {
        let member = Member::Replace;
        match self.member(member).and_then(truth_in) {
            Some(replace) => Ok(replace),
            None => Err(self.bad(member)),
        }
    }

    fn item<T: Item>(&self, member: Member) -> Result<T, ScriptFault>
        ensures { ReadsMember T.reading member self.now result }
    {
        let Some(item) = self.member(member) else {
            return Err(self.bad(member));
        };
        match T::from_json(self.alloc, item)? {
            Some(read) => Ok(read),
            None => Err(self.bad(member)),
        }
    }

    /// The value that is stored.
    pub fn value(&self) -> Result<value::Value, ScriptFault>
        ensures { ReadsMember value members.Value self.now result }
    {
        self.item(Member::Value)
    }

    /// The value that is expected.
    pub fn expected(&self) -> Result<value::Value, ScriptFault>
        ensures { ReadsMember value members.Expect self.now result }
    {
        self.item(Member::Expect)
    }

    /// The argument of a processor.
    pub fn argument(&self) -> Result<value::Value, ScriptFault>
        ensures { ReadsMember value members.Argument self.now result }
    {
        self.item(Member::Argument)
    }

    /// The keys of a call on many.
    pub fn keys(&self) -> Result<Keys, ScriptFault>
        ensures { ReadsMember keys members.Keys self.now result }
    {
        self.item(Member::Keys)
    }

    /// The keys of a call on many, each with a value.
    pub fn pairs(&self) -> Result<Pairs, ScriptFault>
        ensures { ReadsMember pairs members.Pairs self.now result }
    {
        self.item(Member::Pairs)
    }
}
