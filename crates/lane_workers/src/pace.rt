//! How many workers go on at once, and how many turns each takes. These are hints: no clause of `serve`
//! rests on them.
//!
//! Steps are taken under the lock, and only the bodies of turns run beside one another. So where bodies
//! are short, more workers only wait for the lock. That is seen by the lock alone, without a clock: a
//! worker that comes back from its bodies, and finds the lock held or others that wait for it, has met
//! another. If workers meet often, one of them rests; after a while it's woken again, to see whether it
//! still is so. If the bodies of the worker that woke it were done before it came, they take less time than
//! waking does, and it rests again at once.

ghost use Rattle.std.specs.Prelude.{◌≡◌, ◌↔◌, ◌+◌, ◌-◌, ◌*◌, ◌/◌, ◌^◌, ◌<◌, ◌≤◌, ◌==◌, ◌&&◌, ◌||◌};
ghost use Rattle.std.specs.Prelude.{IsFalse, IsTrue, false, max, min, nat_le, nat_lt, not, true};
ghost use Rattle.lane_workers.specs.Turns.{most_turns};

/// How many turns a worker takes at once, at most.
const MOST_TURNS: usize = 32;

/// How many meetings at the lock make it crowded.
const CROWDED: u32 = 16;

/// How many times in a row workers come back to the lock without a crowd, until it isn't known as crowded
/// any more.
const CALM: u32 = 32;

/// For how many turns at the lock nobody is woken, at most.
const LONGEST_REST: u32 = 127;

/// How much of its arena a body takes that is short, in bytes.
const SHORT_BODY: usize = 4096;

/// How many calls are served at once until a rest is one shorter.
const SERVED_AT_ONCE: u32 = 256;

/// How the workers of one silo go on.
#[derive(Drop)]
pub struct Pace {
    /// How many workers there may be.
    pub workers: usize,
    /// How many of them have reached the lock.
    pub come: usize,
    /// How many of those that have reached it aren't waiting.
    pub awake: usize,
    /// How many turns a worker takes at once while others are awake.
    pub share: usize,
    /// How often of late a worker met another at the lock.
    pub crowd: u32,
    /// How often in a row workers came back since one was sent to rest.
    pub calm: u32,
    /// A worker was woken, and hasn't come yet.
    pub woken: bool,
    /// How often one was woken.
    pub wakings: u64,
    /// The one that was woken hadn't come when the bodies were done of the worker that woke it.
    pub late: bool,
    /// For how many turns at the lock nobody is woken from now on.
    pub rest: u32,
    /// For how many nobody was woken when one rested last.
    pub rested: u32,
    /// A gate is called for each turn, so none may be served at once.
    pub watched: bool,
    /// A body wasn't short that ran under the lock, so others are to run without it until the worker comes back.
    pub long: bool,
    /// How many calls were served at once since a rest got shorter.
    pub served: u32,
}

impl Pace {
    /// The pace of `workers` workers that are about to start: each takes one turn.
    pub fn new(workers: usize, watched: bool) -> Pace
        ensures { result ≡ record {
          workers = workers;
          come = 0;
          awake = 0;
          share = 1;
          crowd = 0;
          calm = 0;
          woken = false;
          wakings = 0;
          late = false;
          rest = 0;
          rested = 0;
          watched = watched;
          long = false;
          served = 0;
        } }
    {
        Pace {
            workers,
            come: 0,
            awake: 0,
            share: 1,
            crowd: 0,
            calm: 0,
            woken: false,
            wakings: 0,
            late: false,
            rest: 0,
            rested: 0,
            watched,
            long: false,
            served: 0,
        }
    }

    /// A worker reaches the lock for the first time.
    pub fn start(&mut self)
        ensures { self.new
            ≡ record self.old { come = min (self.old.come + 1) (2 ^ 64 - 1); awake = min (self.old.awake + 1) (2 ^ 64 - 1) } }
    {
        self.come = self.come.saturating_add(1);
        self.awake = self.awake.saturating_add(1);
    }

    /// A worker comes back from the bodies of its turns, and maybe met another at the lock. Before them
    /// it woke another by this waking, if by any.
    pub fn come_back(&mut self, met: bool, waking: u64)
        ensures counted { (self.new.workers ≡ self.old.workers) × (self.new.come ≡ self.old.come) × (self.new.awake ≡ self.old.awake) }
        ensures short { self.new.long ≡ false }
        ensures late { self.new.late ≡ (self.old.late || (self.old.woken && (self.old.wakings == waking))) }
        ensures met { IsTrue met → 1 < self.old.awake → self.new.share ≡ min (min (self.old.share * 2) (2 ^ 64 - 1)) 32 }
        ensures free { IsFalse met → 1 < self.old.awake → self.new.share ≡ max (self.old.share / 2) 1 }
        ensures alone { self.old.awake ≤ 1 → (self.new.share ≡ self.old.share) × (self.new.crowd ≡ 0) }
    {
        self.long = false;
        if self.woken && self.wakings == waking {
            self.late = true;
            self.rest = self.rest.max(self.rested).max(1);
        }
        if self.awake <= 1 {
            self.crowd = 0;
            return;
        }
        if met {
            self.crowd = self.crowd.saturating_add(1);
            self.share = self.share.saturating_mul(2).min(MOST_TURNS);
        } else {
            self.crowd = self.crowd.saturating_sub(1);
            self.share = (self.share / 2).max(1);
        }
        self.calm = self.calm.saturating_add(1);
        if self.calm >= CALM {
            self.rested = 0;
        }
    }

    /// Whether this worker is better off at rest, since the lock is what all wait for. Another is awake
    /// then.
    pub fn rests(&mut self) -> bool
        ensures rests { result ≡ ((self.old.late || nat_le 16 self.old.crowd) && nat_lt 1 self.old.awake) }
        ensures stays { IsFalse result → self.new ≡ self.old }
        ensures counted { (self.new.workers ≡ self.old.workers) × (self.new.come ≡ self.old.come) × (self.new.awake ≡ self.old.awake) }
        ensures rest { IsTrue result → (self.new.rest ≡ self.new.rested) × (self.new.rest ≤ 127) }
    {
        let crowded = self.late || self.crowd >= CROWDED;
        if !crowded || self.awake <= 1 {
            return false;
        }
        self.late = false;
        self.crowd = 0;
        self.calm = 0;
        self.rested = self
            .rested
            .saturating_mul(2)
            .saturating_add(1)
            .min(LONGEST_REST);
        self.rest = self.rested;
        true
    }

    /// A worker waits from now on.
    pub fn sleep(&mut self)
        ensures { self.new ≡ record self.old { awake = self.old.awake - 1 } }
    {
        self.awake = self.awake.saturating_sub(1);
    }

    /// A worker waits no more. The next is woken only after as long a rest as the last, so that it's seen
    /// first how this one fares.
    pub fn wake_up(&mut self)
        ensures { self.new ≡ record self.old { awake = min (self.old.awake + 1) (2 ^ 64 - 1); woken = false; rest = self.old.rested } }
    {
        self.awake = self.awake.saturating_add(1);
        self.woken = false;
        self.rest = self.rested;
    }

    /// A worker ends. Those that are awake still are counted without it, so that the last of them doesn't
    /// wait for one that is gone.
    pub fn leave(&mut self)
        ensures { self.new ≡ record self.old { come = self.old.come - 1; awake = self.old.awake - 1 } }
    {
        self.come = self.come.saturating_sub(1);
        self.sleep();
    }

    /// How many turns a worker takes now, at most, where `seen` things can be done. A worker's first turn is one, so
    /// that at the start each has its own; and one that is alone leaves half to the next that comes.
    pub fn share_of(&self, first: bool, seen: usize) -> usize
        ensures within { (1 ≤ result) × (result ≤ most_turns first) }
        ensures crowd { IsFalse first → 1 < self.now.awake → result ≡ max 1 (min self.now.share 32) }
        ensures alone { IsFalse first → self.now.awake ≤ 1 → self.now.come < self.now.workers → result ≡ max 1 (min (seen / 2) 32) }
        ensures only { IsFalse first → self.now.awake ≤ 1 → self.now.workers ≤ self.now.come → self.now.come ≤ 1 → result ≡ 32 }
        ensures resting { IsFalse first → self.now.awake ≤ 1 → self.now.workers ≤ self.now.come → 0 < self.now.rest → result ≡ 32 }
        ensures rested { IsFalse first → self.now.awake ≤ 1 → 1 < self.now.come → self.now.rest ≡ 0 → result ≡ max 1 (min (seen / 2) 32) }
    {
        if first {
            1
        } else if self.awake > 1 {
            self.share.clamp(1, MOST_TURNS)
        } else if self.come < self.workers || (self.come > 1 && self.rest == 0) {
            (seen / 2).clamp(1, MOST_TURNS)
        } else {
            MOST_TURNS
        }
    }

    /// Whether another worker is woken to do what is left: if one waits, none is on its way, and the rest is
    /// over. A rest is one shorter each time.
    pub fn wakes(&mut self) -> bool
        ensures wakes { IsTrue result ↔ IsFalse self.old.woken × (self.old.awake < self.old.come) × (self.old.rest ≡ 0) }
        ensures rest { IsFalse self.old.woken → self.old.awake < self.old.come → self.new.rest ≡ self.old.rest - 1 }
        ensures woken { self.new.woken ≡ (self.old.woken || result) }
        ensures others { self.new ≡ record self.old { woken = self.new.woken; wakings = self.new.wakings; rest = self.new.rest } }
    {
        if self.woken || self.awake >= self.come {
            return false;
        }
        if self.rest > 0 {
            self.rest -= 1;
            return false;
        }
        self.woken = true;
        self.wakings = self.wakings.wrapping_add(1);
        true
    }

    /// A worker goes on, and there is nothing to wake another for. A rest is one shorter then, too.
    pub fn pass(&mut self)
        ensures { self.new ≡ record self.old { rest = self.old.rest - 1 } }
    {
        self.rest = self.rest.saturating_sub(1);
    }

    /// Whether a call may be served at once: its turn begins and ends under the lock. No other worker is awake then, and none is to be
    /// woken soon; or nothing else is to do.
    pub fn serves_at_once(&self, alone: bool) -> bool
        ensures { result ≡ (not self.now.watched && nat_le self.now.awake 1 && nat_le self.now.workers self.now.come
            && (alone || nat_le self.now.workers 1 || (nat_lt 0 self.now.rest && not self.now.long))) }
    {
        if self.watched || self.awake > 1 || self.come < self.workers {
            return false;
        }
        alone || self.workers <= 1 || (self.rest > 0 && !self.long)
    }

    /// A call was served at once, or wasn't one for that, and its body took `taken` bytes of the arena. After every 256
    /// of them a rest is one shorter.
    pub fn note_body(&mut self, taken: usize)
        ensures long { 4096 < taken → self.new.long ≡ true }
        ensures short { taken ≤ 4096 → self.new.long ≡ self.old.long }
        ensures rest { 255 ≤ self.old.served → (self.new.served ≡ 0) × (self.new.rest ≡ self.old.rest - 1) }
        ensures stays { self.old.served < 255 → (self.new.served ≡ self.old.served + 1) × (self.new.rest ≡ self.old.rest) }
        ensures others { self.new ≡ record self.old { long = self.new.long; served = self.new.served; rest = self.new.rest } }
    {
        if taken > SHORT_BODY {
            self.long = true;
        }
        self.served = self.served.saturating_add(1);
        if self.served >= SERVED_AT_ONCE {
            self.served = 0;
            self.pass();
        }
    }
}
