//! A lock that most calls hold for a moment only.
use std::hint::spin_loop;
use std::sync::{Mutex, MutexGuard, Wait};

/// How often a thread that found the lock held tries it again before it is put to sleep: for some two microseconds.
const TRIES: u32 = 40;

/// The pause between two tries, in steps of `spin_loop`.
const PAUSE: u32 = 8;

/// A `Mutex` for what a call on one key holds for less than a microsecond. To be put to sleep and woken takes many times
/// as long: so a thread that finds it held tries for a moment first. One that sleeps is woken as soon as the lock is free.
#[derive(Drop)]
pub(crate) struct BriefLock<T> {
    mutex: Mutex<T>,
}

impl<T> BriefLock<T> {
    pub(crate) fn new(value: T) -> BriefLock<T> {
        BriefLock {
            mutex: Mutex::new(value),
        }
    }

    pub(crate) fn into_inner(self) -> T {
        self.mutex.into_inner()
    }

    /// What it guards, for who has the lock itself: no other thread can take it.
    pub(crate) fn get_mut(&mut self) -> &mut T {
        self.mutex.get_mut()
    }

    /// Takes the lock where no other thread has it.
    pub(crate) fn try_lock(&self) -> Option<MutexGuard<'_, T>> {
        self.mutex.try_lock()
    }

    /// Takes the lock; waits while another has it.
    pub(crate) fn lock<R: Wait>(&self, rt: &R) -> MutexGuard<'_, T> {
        match self.try_lock() {
            Some(guard) => guard,
            None => self.lock_held(rt),
        }
    }

    /// Takes the lock that another thread had a moment ago: by trying it, then asleep.
    #[inline(never)]
    fn lock_held<R: Wait>(&self, rt: &R) -> MutexGuard<'_, T> {
        for _ in 0..TRIES {
            for _ in 0..PAUSE {
                spin_loop();
            }
            if let Some(guard) = self.try_lock() {
                return guard;
            }
        }
        self.mutex.lock(rt)
    }
}
