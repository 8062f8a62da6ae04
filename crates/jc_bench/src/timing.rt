//! The clocks that a thread reads before and after its work.
use std::io;
use std::time::{Clock, CpuClock, Duration};

/// Nanoseconds since some start: by the clock, and of this thread's processor time.
#[derive(Clone, Copy)]
pub struct Moment {
    pub wall: u64,
    pub processor: u64,
}

/// Nanoseconds, or 0 where the clock could not be read.
fn nanoseconds(read: io::Result<Duration>) -> u64 {
    match read {
        Ok(time) => (time.as_nanos() % (1 << 63)) as u64,
        Err(_) => 0,
    }
}

/// Nanoseconds by the clock, since some start.
pub fn wall<R: Clock>(rt: &R) -> u64 {
    nanoseconds(rt.monotonic())
}

impl Moment {
    /// Reads both clocks.
    pub fn now<R: Clock + CpuClock>(rt: &R) -> Moment {
        Moment {
            wall: wall(rt),
            processor: nanoseconds(rt.thread_cpu_time()),
        }
    }

    /// What has passed from an earlier moment to this one.
    pub fn since(self, earlier: Moment) -> Moment {
        Moment {
            wall: self.wall.wrapping_sub(earlier.wall),
            processor: self.processor.wrapping_sub(earlier.processor),
        }
    }
}
