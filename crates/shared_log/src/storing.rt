//! What threads do at a shared log between their turns: one stores what is queued, outside of any turn, and
//! others wait until they may queue.
ghost use Rattle.std.specs.Prelude.{◌≤◌, OnOk};
ghost use Rattle.record_log.specs.Records.{greatest_clock};
ghost use Rattle.shared_log.specs.LogValues.{HoldsWork, mark_of, opened_of};
ghost use Rattle.shared_log.specs.Shared.{IsSeated, KnowsStill, KnowsQueued};
ghost use Rattle.turnstile.specs.Seats.{seen, setting_of};

use crate::log_value::{LogValue, Unqueued, Work};
use crate::shared::SharedLog;
use crate::steps::Found;
use disks::Disk;
use q_base::Commit;
use record_log::Body;
use std::sync::Wait;
use std::sync::atomic::Ordering;
use turnstile::Seat;

/// How often one whose record found no memory waits until what is queued is stored, and tries again.
const TRIES: u32 = 100;

impl<K: Disk + Drop> SharedLog<K> {
    /// Adds records to the log, outside of any turn, and puts it back.
    pub(crate) fn store<R: Wait>(&self, rt: &R, seat: &mut Seat<LogValue<K>>, work: Work<K>)
        requires seat { IsSeated self.now.turnstile seat.old }
        requires work { HoldsWork (setting_of opened_of self.now.turnstile) (seen seat.old) work.log work.batch (mark_of work.from) (mark_of work.to) }
        ensures seat { IsSeated self.now.turnstile seat.new }
        ensures known { KnowsStill self.now.turnstile seat.old seat.new }
    {
        let mut work = work;
        let number = work.number;
        self.bells.note_taken(number);
        let stored = work.log.append(&work.batch);
        let _ = self.put_back(rt, seat, work, stored);
        self.bells.ring_stored(number);
    }

    /// Queues a commit. Where it comes early it waits until the commits before it are queued: whoever queues
    /// one of them sees that it waits.
    pub(crate) fn queue_in_order<R: Wait>(
        &self,
        rt: &R,
        seat: &mut Seat<LogValue<K>>,
        commit: Commit,
        clock: u64,
        body: &Body,
    ) -> Result<(), Unqueued>
        requires seat { IsSeated self.now.turnstile seat.old }
        requires clock { clock ≤ greatest_clock }
        ensures seat { IsSeated self.now.turnstile seat.new }
        ensures known { KnowsStill self.now.turnstile seat.old seat.new }
        ensures queued { OnOk result (KnowsQueued self.now.turnstile seat.new commit (record { kind = 1; clock = clock; body = body.now })) }
    {
        match self.try_to_queue(rt, seat, commit, clock, body) {
            Err(Unqueued::Early) => {}
            tried => return tried,
        }
        self.early.fetch_add(1, Ordering::SeqCst);
        let waited = self.wait_to_queue(rt, seat, commit, clock, body);
        self.early.fetch_sub(1, Ordering::SeqCst);
        waited
    }

    /// Queues a commit once the commits before it are queued.
    fn wait_to_queue<R: Wait>(
        &self,
        rt: &R,
        seat: &mut Seat<LogValue<K>>,
        commit: Commit,
        clock: u64,
        body: &Body,
    ) -> Result<(), Unqueued>
        requires seat { IsSeated self.now.turnstile seat.old }
        requires clock { clock ≤ greatest_clock }
        ensures seat { IsSeated self.now.turnstile seat.new }
        ensures known { KnowsStill self.now.turnstile seat.old seat.new }
        ensures queued { OnOk result (KnowsQueued self.now.turnstile seat.new commit (record { kind = 1; clock = clock; body = body.now })) }
    {
        for _ in rt.forever() {
            let heard = self.queued.hear();
            match self.try_to_queue(rt, seat, commit, clock, body) {
                Err(Unqueued::Early) => self.queued.sleep(rt, heard),
                tried => return tried,
            }
        }
        unreachable!()
    }

    /// Queues a commit, where it is not early. Where memory is short it stores first what is queued.
    fn try_to_queue<R: Wait>(
        &self,
        rt: &R,
        seat: &mut Seat<LogValue<K>>,
        commit: Commit,
        clock: u64,
        body: &Body,
    ) -> Result<(), Unqueued>
        requires seat { IsSeated self.now.turnstile seat.old }
        requires clock { clock ≤ greatest_clock }
        ensures seat { IsSeated self.now.turnstile seat.new }
        ensures known { KnowsStill self.now.turnstile seat.old seat.new }
        ensures queued { OnOk result (KnowsQueued self.now.turnstile seat.new commit (record { kind = 1; clock = clock; body = body.now })) }
    {
        for _n in 0..TRIES {
            match self.queue(rt, seat, commit, clock, body) {
                Err(Unqueued::Memory) => self.flush(rt, seat),
                tried => return tried,
            }
        }
        Err(Unqueued::Memory)
    }

    /// Stores what is queued, or waits until another has, so that there is memory for more.
    fn flush<R: Wait>(&self, rt: &R, seat: &mut Seat<LogValue<K>>)
        requires { IsSeated self.now.turnstile seat.old }
        ensures seat { IsSeated self.now.turnstile seat.new }
        ensures known { KnowsStill self.now.turnstile seat.old seat.new }
    {
        let batch = self.bells.next_batch();
        let heard = self.bells.hear(batch);
        let Found::Work(work) = self.look(rt, seat, u64::MAX, 0, true) else {
            self.bells.sleep(rt, batch, heard);
            return;
        };
        self.store(rt, seat, work);
    }
}
