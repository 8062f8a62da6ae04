//! How many bytes the keys and the values of a cache's rows have.
ghost use Rattle.std.specs.Prelude.{◌≡◌, ◌≤◌, ◌+◌, ◌-◌};
ghost use Rattle.jc_model.specs.Places.{at_place};
ghost use Rattle.jc_engine.specs.Caches.{NumbersRows, row_in};
ghost use Rattle.jc_c.specs.Bytes.{bytes_in, bytes_numbered, row_size};
ghost use Rattle.jc_c.specs.Looks.{rows_status};
ghost use Rattle.jc_c.specs.Parts.{or_before};

use crate::ffi_manager::FfiManager;
use crate::status::Status;
use jc_model::event::CacheId;

impl FfiManager {
    /// How many bytes the row of a number has, if there is one.
    fn row_size(&self, id: CacheId, number: u32) -> u64
        ensures size { result ≡ row_size (row_in number (at_place self.now.caches id)) }
        ensures bound { result ≤ 65598 }
        ensures numbers { NumbersRows (at_place self.now.caches id) }
    {
        match self.engine.row(id, number) {
            Some(row) => row.key.text().len() as u64 + row.value.first().bytes().len() as u64,
            None => 0,
        }
    }

    /// How many bytes the rows of the first numbers have, of one at least.
    fn size_of_rows(&self, id: CacheId, capacity: u32) -> u64
        ensures size { result ≡ bytes_numbered (1 + (capacity - 1)) (at_place self.now.caches id) }
        ensures numbers { NumbersRows (at_place self.now.caches id) }
    {
        let mut total = self.row_size(id, 0);
        let mut number: u32 = 1;
        'rows: while number < capacity {
            total += self.row_size(id, number);
            number += 1;
        }
        total
    }

    /// Tells how many bytes the keys and the values of a cache's rows have, those of expired rows
    /// among them. It goes over all numbers below the cache's capacity.
    pub fn count_bytes(&self, id: u32, bytes: &mut u64) -> Status
        ensures status { result ≡ rows_status (at_place self.now.caches id) }
        ensures bytes { bytes.new ≡ or_before bytes.old (bytes_in (at_place self.now.caches id)) }
    {
        let id = CacheId::new(id);
        match self.engine.config(id) {
            Some(config) => {
                *bytes = self.size_of_rows(id, config.capacity);
                Status::Done
            }
            None => Status::NoSuchCache,
        }
    }
}
