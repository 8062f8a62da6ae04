//! The live caches by id and name, as bytes in the caller's buffer.
ghost use Rattle.std.specs.Prelude.{◌≡◌, ◌+◌, ◌≤◌, ◌<◌, ◌^◌, ◌++◌, [], ◌∷◌, Some, length};
ghost use Rattle.std.specs.Int.{to_le_bytes, w32};
ghost use Rattle.jc_engine.specs.Caches.{id_of, names_of};
ghost use Rattle.jc_save.specs.Placing.{put_at};
ghost use Rattle.jc_c.specs.Items.{buffer_after, copy_status};
ghost use Rattle.jc_c.specs.Names.{name_bytes, names_told};

use crate::ffi_manager::FfiManager;
use crate::put::{put, tell_length};
use crate::status::Status;
use jc_model::event::CacheId;
use jc_model::key::Key;

/// How many bytes of a cache stand before its name's.
const HEAD: usize = 5;

/// A cache's id, and how many bytes its name has.
fn head_of(id: CacheId, name: &Key) -> [u8; HEAD]
    ensures { result ≡ to_le_bytes w32 id ++ length name.now ∷ [] }
{
    let number = id.number().to_le_bytes();
    let length = name.text().len() as u8;
    [number[0], number[1], number[2], number[3], length]
}

impl FfiManager {
    /// Writes a live cache's id and name from a place on, as much as there is room for. Tells the
    /// place behind them.
    fn put_name(&self, out: &mut [u8], at: usize, name: &Key) -> usize
        requires { at < 2 ^ 48 }
        ensures place { result
            ≡ at + length (name_bytes name.now (id_of name.now self.now.caches)) }
        ensures few { result ≤ at + 68 }
        ensures out { out.new
            ≡ put_at at (name_bytes name.now (id_of name.now self.now.caches)) out.old }
    {
        let Some(id) = self.find(name) else {
            return at;
        };
        let head = head_of(id, name);
        let behind = put(out, at, &head);
        put(out, behind, name.text().as_bytes())
    }

    /// The names of the live caches, in order of id. They are no more than the ids that were given.
    fn names(&self) -> &[Key]
        ensures same { result.now ≡ names_of self.now.caches }
        ensures few { length result.now < 2 ^ 32 }
    {
        let given = self.engine.next_id().number() as usize;
        let names = self.engine.names();
        &names[..names.len().min(given)]
    }

    /// Writes of each live cache its id, how many bytes its name has, and its name, in order of id,
    /// and tells how many bytes that is.
    pub fn list_names(&self, out: &mut [u8], len: &mut usize) -> Status
        ensures status { result
            ≡ copy_status (Some (names_told self.now.caches)) (length out.old) }
        ensures out { out.new ≡ buffer_after (Some (names_told self.now.caches)) out.old }
        ensures len { len.new ≡ length (names_told self.now.caches) }
    {
        let room = out.len();
        let names = self.names();
        let mut at = 0;
        for name in names {
            at = self.put_name(out, at, name);
        }
        tell_length(at, room, len)
    }
}
