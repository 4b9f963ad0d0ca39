//! The cache.
ghost use Rattle.std.specs.Prelude.{◌≡◌, ℕ, ◌-◌, ◌*◌, ◌≤◌, nat_lt, [], List, is_some, IsOk, IfOk, IfSome, OnOk, OnErr};
ghost use Rattle.std.specs.Option.{option_map, option_copied};
ghost use Rattle.cache_core.specs.Entries.{others, in_front, after_put, after_get, found};
ghost use Rattle.cache_core.specs.Inside.{entries_in};
ghost use Rattle.cache_core.specs.Uses.{Use, entries_after, IsLastPut};

use lru::LruCache;
use shape_base::{OutOfMemory, Reply, Text};
use std::alloc::Global;
use std::marker::Model;
use std::num::NonZeroUsize;

/// A second, in milliseconds.
const SECOND: u64 = 1_000;

/// A reply, and the moment of its put in milliseconds.
#[derive(Drop)]
struct Kept {
    reply: Reply,
    put_at: u64,
}

/// Replies by their targets. Contracts see them as a list, the most recently used first, beside the capacity.
#[derive(Drop)]
pub struct Cache {
    alloc: Global,
    replies: LruCache<String, Kept>,
}

impl Model for Cache {
    ghost use Rattle.cache_core.specs.Entries.{Contents};

    ghost Value = { Contents };

    ghost use Rattle.cache_core.specs.Inside.{entries_in};

    ghost view = { λ c. record { capacity = c.replies.cap; entries = entries_in c.replies } };
}

impl Kept {
    /// Whether it is younger than its age at a moment. A moment before its put counts as that of the put.
    fn is_young(&self, now: u64) -> bool
        ensures { result ≡ nat_lt (now - self.now.put_at) (1000 * self.now.reply.max_age) }
    {
        now.saturating_sub(self.put_at) < SECOND * u64::from(self.reply.max_age)
    }
}

/// Whether a reply is kept for the target and is younger than its age.
fn has_young(replies: &LruCache<String, Kept>, target: &Text, now: u64) -> bool
    ensures { result ≡ is_some (found target.now now (entries_in replies.now)) }
{
    match replies.peek(target.as_str()) {
        Some(kept) => kept.is_young(now),
        None => false,
    }
}

impl Cache {
    ghost use Rattle.std.specs.Borrow.{sem};
    ghost use Rattle.cache_core.specs.Lends.{ends_as};

    /// A cache of no replies, which keeps at most `capacity`.
    pub fn new(alloc: Global, capacity: u32) -> Result<Cache, OutOfMemory>
        requires { 1 ≤ capacity }
        ensures { IfOk result (λ cache. cache ≡ record { capacity = capacity; entries = [] }) }
    {
        let most = NonZeroUsize::new(capacity as usize).unwrap();
        let replies = LruCache::sparse(alloc, most)?;
        Ok(Cache { alloc, replies })
    }

    /// Takes out the reply that is kept for a target.
    fn remove(&mut self, target: &Text)
        ensures { self.new ≡ record { capacity = self.old.capacity; entries = others target.now self.old.entries } }
    {
        // The length tells that no two replies are for one target.
        let _count = self.replies.len();
        let _was = self.replies.pop(target.as_str());
    }

    /// Keeps a reply as the most recently used.
    fn keep(&mut self, target: &Text, kept: Kept) -> Result<(), OutOfMemory>
        ensures ok { OnOk result (self.new ≡ record { capacity = self.old.capacity; entries = in_front self.old.capacity (record { target = target.now; reply = kept.reply; put_at = kept.put_at }) self.old.entries }) }
        ensures err { OnErr result (self.new ≡ self.old) }
    {
        // The length tells that no two replies are for one target, and that there are no more than the capacity.
        let _count = self.replies.len();
        let key = String::from_str(self.alloc, target.as_str())?;
        let _was = self.replies.put(key, kept)?;
        Ok(())
    }

    /// Puts a reply for a target at the moment `now`, in milliseconds, as the most recently used. The least recently used goes out
    /// where there would be too many.
    ///
    /// A reply of age 0 is not kept, and none for its target stays. After want of memory all is as it was.
    pub fn put(&mut self, target: Text, reply: Reply, now: u64) -> Result<(), OutOfMemory>
        ensures ok { OnOk result (self.new.entries ≡ after_put self.old.capacity (record { target = target; reply = reply; put_at = now }) self.old.entries) }
        ensures err { OnErr result (self.new ≡ self.old) }
        ensures capacity { self.new.capacity ≡ self.old.capacity }
        ensures age_0 { reply.max_age ≡ 0 → IsOk result }
    {
        if reply.max_age == 0 {
            self.remove(&target);
            return Ok(());
        }
        self.keep(&target, Kept { reply, put_at: now })
    }

    /// The last reply that was put for the target, while it is younger than its age at the moment `now`, in milliseconds. It becomes
    /// the most recently used.
    ///
    /// `None` exactly where none is kept for the target, or as many seconds as its age passed since its put. A moment before the put
    /// counts as that of the put. It takes no memory.
    pub fn get(&mut self, target: &Text, now: u64) -> Option<&Reply>
        ensures* after { sem 𝓛 (ends_as self.entry (after_get target.now now self.old.entries)) }
        ensures found { option_copied result ≡ option_map (λ e. e.reply) (found target.now now self.old.entries) }
        ensures last_put { (uses : List Use) → self.old.entries ≡ entries_after self.old.capacity uses → IfSome (option_copied result) (IsLastPut target.now now uses) }
    {
        if !has_young(&self.replies, target, now) {
            return None;
        }
        // The length tells that no two replies are for one target.
        let _count = self.replies.len();
        let kept = self.replies.get(target.as_str())?;
        Some(&kept.reply)
    }
}
