//! What gives bytes and what takes them, by what a caller may rely on.
ghost use Rattle.std.specs.Prelude.{◌≡◌, ℕ, ◌<◌, ◌≤◌, List, length, take, Option, IfOk, OnErr, IsErrOf};
ghost use Rattle.schema_defs.specs.Faults.{Rises};
ghost use Rattle.run_io.specs.Bytes.{Appends, IsSpent, Takes};

use crate::fault::{Failed, SinkFault};

/// Something that gives bytes. `left` is what it has yet to give, or `None` where it doesn't tell, and `faults` counts
/// its failures.
pub trait Source {
    ghost left: { Self → Option (List ℕ) };

    ghost faults: { Self → ℕ };

    /// Reads some bytes to the front of `into`, and says how many. None in a buffer that has room is the end. It fails
    /// only where the count of failures rose.
    fn read(&mut self, into: &mut [u8]) -> Result<usize, Failed>
        ensures within { IfOk result (λ n. n ≤ length into.new) }
        ensures taken { IfOk result (λ n. Takes (left self.old) (left self.new) (take n into.new)) }
        ensures end { IfOk result (λ n. n ≡ 0 → 0 < length into.new → IsSpent (left self.old)) }
        ensures unchanged { OnErr result (left self.new ≡ left self.old) }
        ensures fault { OnErr result (Rises (faults self.old) (faults self.new)) }
        ensures kept { faults self.old ≤ faults self.new };
}

/// Something that takes bytes. `written` is what it has taken, or `None` where it doesn't tell, and `faults` counts its
/// failures.
pub trait Sink {
    ghost written: { Self → Option (List ℕ) };

    ghost faults: { Self → ℕ };

    /// Writes a front of the bytes, and says how many. It fails for want of memory or where the count of failures rose;
    /// so does the count where it took none of a piece that has bytes.
    fn write(&mut self, bytes: &[u8]) -> Result<usize, SinkFault>
        ensures within { IfOk result (λ n. n ≤ length bytes.now) }
        ensures appended { IfOk result (λ n. Appends (written self.old) (written self.new) (take n bytes.now)) }
        ensures stalled { IfOk result (λ n. n ≡ 0 → 0 < length bytes.now → Rises (faults self.old) (faults self.new)) }
        ensures unchanged { OnErr result (written self.new ≡ written self.old) }
        ensures fault { IsErrOf result SinkFault.Failed → Rises (faults self.old) (faults self.new) }
        ensures kept { faults self.old ≤ faults self.new };
}
