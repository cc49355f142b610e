//! How threads that wait at a shared log are woken.
//!
//! Records are stored in batches, which are numbered from 1 on, and each has a bell: those sleep at it who
//! wait for a record of the batch. When batch 7 is stored, all are woken who wait for it, and one of those
//! who wait for batch 8, which is to store that.
//!
//! No wake-up is lost. A thread hears a bell, then looks, in a turn or at the signs, and then sleeps while
//! the bell says what was heard. Whoever changes what others wait for changes it first and then rings: so
//! one that looked before the change finds the bell changed, and does not sleep. There are fewer bells than
//! batches, and a thread may sleep at another batch's: what it is woken for is found by looking.
use std::sync::Wait;
use std::sync::atomic::{AtomicU64, Ordering};
use std::time::Duration;

/// For how many milliseconds one who waits sleeps at most.
const REST_MILLIS: u64 = 100;

/// Something that others wait for.
#[derive(Drop)]
pub(crate) struct Bell {
    word: AtomicU64,
}

impl Bell {
    pub(crate) fn new() -> Bell {
        Bell {
            word: AtomicU64::new(0),
        }
    }

    /// What the bell says.
    pub(crate) fn hear(&self) -> u64 {
        self.word.load(Ordering::SeqCst)
    }

    /// Changes what it says, and wakes those who sleep.
    pub(crate) fn ring(&self) {
        self.word.fetch_add(1, Ordering::SeqCst);
        self.word.wake_all();
    }

    /// Changes what it says, and wakes one of those who sleep.
    fn ring_for_one(&self) {
        self.word.fetch_add(1, Ordering::SeqCst);
        self.word.wake_one();
    }

    /// Sleeps while it says this.
    pub(crate) fn sleep<R: Wait>(&self, rt: &R, heard: u64) {
        let low = (heard & 0xffff_ffff) as u32;
        self.word
            .park_timeout(rt, low, Duration::from_millis(REST_MILLIS));
    }
}

/// The bells of the batches. Only two batches are waited for at a time: the one that is being stored, and
/// the one behind it.
#[derive(Drop)]
pub(crate) struct Bells {
    even: Bell,
    odd: Bell,
    /// The number of the batch that was taken last.
    taken: AtomicU64,
    /// The number of the batch that was stored last, or could not be.
    stored: AtomicU64,
}

impl Bells {
    pub(crate) fn new() -> Bells {
        Bells {
            even: Bell::new(),
            odd: Bell::new(),
            taken: AtomicU64::new(0),
            stored: AtomicU64::new(0),
        }
    }

    /// The bell of a batch.
    fn of(&self, batch: u64) -> &Bell {
        if batch & 1 == 0 {
            &self.even
        } else {
            &self.odd
        }
    }

    /// What the bell of a batch says.
    pub(crate) fn hear(&self, batch: u64) -> u64 {
        self.of(batch).hear()
    }

    /// Sleeps while the bell of a batch says this.
    pub(crate) fn sleep<R: Wait>(&self, rt: &R, batch: u64, heard: u64) {
        self.of(batch).sleep(rt, heard);
    }

    /// The number of the batch in which a record is that is queued now, or an earlier one.
    pub(crate) fn next_batch(&self) -> u64 {
        self.taken.load(Ordering::SeqCst).saturating_add(1)
    }

    /// Whether a batch is not stored yet and another is being stored, or this one: there is nothing to look
    /// for. It is a sign, told without a turn, and no clause rests on it.
    pub(crate) fn is_under_way(&self, batch: u64) -> bool {
        let stored = self.stored.load(Ordering::SeqCst);
        stored < batch && stored < self.taken.load(Ordering::SeqCst)
    }

    /// Notes that a batch was taken.
    pub(crate) fn note_taken(&self, batch: u64) {
        self.taken.store(batch, Ordering::SeqCst);
    }

    /// Wakes all who wait for a batch that was stored, or could not be, and one who is to store the next.
    pub(crate) fn ring_stored(&self, batch: u64) {
        self.stored.store(batch, Ordering::SeqCst);
        self.of(batch).ring();
        self.of(batch.saturating_add(1)).ring_for_one();
    }

    /// Wakes all.
    pub(crate) fn ring_all(&self) {
        self.even.ring();
        self.odd.ring();
    }
}
