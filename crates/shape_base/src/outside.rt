//! Traits of the outside.
ghost use Rattle.std.specs.Prelude.{◌≡◌, ◌<◌, ◌≤◌, ◌++◌, Bool, true, List, ℕ, length, take, [], IfOk, OnOk, OnErr};
ghost use Rattle.shape_base.specs.Outside.{Rose, AddsFront};

/// A call on an object of the outside failed.
#[derive(Clone, Copy, Debug, PartialEq, Eq, Drop)]
pub struct Failed;

/// What an object of the outside gave and took, and how often it failed.
pub trait Traffic {
    /// Whether it tells its bytes.
    ghost tells: { Bool };

    /// What it gave.
    ghost given: { Self → List ℕ };

    /// What it will give.
    ghost left: { Self → List ℕ };

    /// What was written to it.
    ghost written: { Self → List ℕ };

    /// How often a read failed.
    ghost failed_reads: { Self → ℕ };

    /// How often a write failed.
    ghost failed_writes: { Self → ℕ };
}

/// Bytes come out of it.
pub trait Source: Traffic {
    /// Puts bytes at the front of the room, at most as many as fit there. No byte, with room, means that nothing is left.
    fn read(&mut self, room: &mut [u8]) -> Result<usize, Failed>
        ensures bound { IfOk result (λ n. n ≤ length room.new) }
        ensures left { Self.tells ≡ true → IfOk result (λ n. Self.left self.old ≡ take n room.new ++ Self.left self.new) }
        ensures given { Self.tells ≡ true → IfOk result (λ n. Self.given self.new ≡ Self.given self.old ++ take n room.new) }
        ensures end { Self.tells ≡ true → IfOk result (λ n. n ≡ 0 → 0 < length room.new → Self.left self.new ≡ []) }
        ensures err { OnErr result ((Self.left self.new ≡ Self.left self.old) × (Self.given self.new ≡ Self.given self.old)) }
        ensures later { Self.failed_reads self.old ≤ Self.failed_reads self.new }
        ensures cause { OnErr result (Rose (Self.failed_reads self.old) (Self.failed_reads self.new)) }
        ensures written { Self.written self.new ≡ Self.written self.old }
        ensures writes { Self.failed_writes self.new ≡ Self.failed_writes self.old };
}

/// Bytes go into it.
pub trait Sink: Traffic {
    /// Writes the whole piece. After a failure a front of it was written.
    fn write_all(&mut self, piece: &[u8]) -> Result<(), Failed>
        ensures ok { Self.tells ≡ true → OnOk result (Self.written self.new ≡ Self.written self.old ++ piece.now) }
        ensures err { Self.tells ≡ true → OnErr result (AddsFront (Self.written self.old) (Self.written self.new) piece.now) }
        ensures later { Self.failed_writes self.old ≤ Self.failed_writes self.new }
        ensures cause { OnErr result (Rose (Self.failed_writes self.old) (Self.failed_writes self.new)) }
        ensures left { Self.left self.new ≡ Self.left self.old }
        ensures given { Self.given self.new ≡ Self.given self.old }
        ensures reads { Self.failed_reads self.new ≡ Self.failed_reads self.old };
}
