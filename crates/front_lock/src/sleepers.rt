//! How a thread waits until no ticket is out: it looks again, and after a while it sleeps.
//!
//! The rule of the table says nothing of this, and no clause rests on it: a thread that looks too often or that is
//! woken for nothing only loses time.
ghost use Rattle.std.specs.Prelude.{◌≡◌};

use crate::stands::Stands;
use crate::steps::SERVING;
use crate::view::{Ticketed, View};
use atomic_table::Shared;
use std::hint::spin_loop;
use std::snapshot::Snapshot;
use std::sync::Wait;
use std::sync::atomic::{AtomicU64, Ordering};
use std::thread;

// How often a thread looks at once, and how often in all before it sleeps. The looks between let others run first.
const SPINS: u32 = 100;

const LOOKS: u32 = 200;

/// How many threads sleep, or are about to.
#[derive(Drop)]
pub(crate) struct Sleepers {
    count: AtomicU64,
}

impl Sleepers {
    pub(crate) fn new() -> Sleepers {
        Sleepers {
            count: AtomicU64::new(0),
        }
    }

    /// Waits a little after so many looks, of which the last saw the ticket `serving`. Answers how many looks that
    /// makes: after a sleep they are counted anew.
    pub(crate) fn rest<S: Stands, R: Wait>(
        &self,
        rt: &R,
        table: &Shared<Option<S>, View<S::Event, S::Fixed>, Snapshot<S>, Ticketed<S>>,
        looks: u32,
        serving: u64,
    ) -> u32
        requires { table.now.table_id.words ≡ 3 }
    {
        if looks < SPINS {
            spin_loop();
            return looks + 1;
        }
        if looks < LOOKS {
            thread::yield_now();
            return looks + 1;
        }
        self.count.fetch_add(1, Ordering::SeqCst);
        table.park(rt, SERVING, (serving % (1 << 32)) as u32);
        self.count.fetch_sub(1, Ordering::SeqCst);
        0
    }

    /// Wakes one of those who sleep, after the word of the served ticket has changed. A thread counts itself before
    /// `park` looks at that word, and this looks at the count after it: so one of the two sees the other.
    pub(crate) fn wake<S: Stands>(
        &self,
        table: &Shared<Option<S>, View<S::Event, S::Fixed>, Snapshot<S>, Ticketed<S>>,
    )
        requires { table.now.table_id.words ≡ 3 }
    {
        if self.count.load(Ordering::SeqCst) != 0 {
            table.wake_one(SERVING);
        }
    }
}
