//! Where output goes.
ghost use Rattle.std.specs.Prelude.{◌≡◌, ◌<◌, ◌≤◌, ℕ, List, Option, length, take, IfOk, OnOk};
ghost use Rattle.std.specs.Prelude.{Result, OnErr, IsErrOf, MatchResult, ⊤};
ghost use Rattle.rbbi_io.specs.Counts.{greatest_count, Rose, GoesOn};
ghost use Rattle.rbbi_io.specs.Sinks.{Takes, TakesFront, IsBuffered};
ghost use Rattle.rbbi_io.specs.Puts.{EndsAtRefusal};
ghost use Rattle.rbbi_io.specs.declared.error.WriteErr.{WriteErr};

use crate::WriteErr;

/// Takes bytes in order. Contracts see the bytes that it took, where it tells them, and a count of
/// faults.
///
/// The count never falls and stops at 18,446,744,073,709,551,615. A count that stands there counts
/// as risen.
pub trait Sink {
    /// The bytes taken so far, or nothing where the sink does not tell.
    ghost taken: { Self → Option (List ℕ) };

    /// How many puts failed.
    ghost faults: { Self → ℕ };

    /// What a put of a piece answers and leaves, where the sink says more of it than is said below.
    ghost put_gives: { Self → List ℕ → Result ℕ WriteErr → Self → Type 0 } = { λ _ _ _ _. ⊤ };

    /// Takes a prefix of the piece, of at least one byte if there is one, and answers its length.
    ///
    /// Refuses `Failed` only where the count of faults rose. After a refusal nothing was taken.
    fn put(&mut self, piece: &[u8]) -> Result<usize, WriteErr>
        ensures some { IfOk result (λ n. 0 < length piece.now → 0 < n) }
        ensures within { IfOk result (λ n. n ≤ length piece.now) }
        ensures taken { MatchResult result
            (λ n. Takes (taken self.old) (taken self.new) (take n piece.now))
            (λ _. taken self.new ≡ taken self.old) }

        ensures faults { GoesOn (faults self.old) (faults self.new) }
        ensures failed { IsErrOf result WriteErr.Failed →
            Rose (faults self.old) (faults self.new) }
        ensures gives { put_gives self.old piece.now result self.new };

    /// The count of faults is not past the greatest number.
    ghost faults_fit: { (sink : Self) → faults sink ≤ greatest_count };
}

/// Puts all bytes, in one or more pieces.
///
/// Refuses `Failed` only where the sink's count of faults rose. After a refusal a prefix of the
/// bytes was taken; the put that was refused is the last one.
pub fn put_all<K: Sink>(out: &mut K, bytes: &[u8]) -> Result<(), WriteErr>
    ensures ok { OnOk result (Takes (K.taken out.old) (K.taken out.new) bytes.now) }
    ensures err { OnErr result (TakesFront (K.taken out.old) (K.taken out.new) bytes.now) }

    ensures faults { GoesOn (K.faults out.old) (K.faults out.new) }
    ensures failed { IsErrOf result WriteErr.Failed → Rose (K.faults out.old) (K.faults out.new) }
    ensures puts { EndsAtRefusal K.put_gives bytes.now out.old result out.new }
{
    let mut at = 0;
    while at < bytes.len() {
        at += out.put(&bytes[at..])?;
    }
    Ok(())
}

/// As many bytes as this are written at once; fewer wait for more.
const FULL: usize = 65_536;

/// Puts the bytes that were made and wait, once there are 65,536 or more, and then none wait.
///
/// Refuses `Failed` only where the sink's count of faults rose. After a refusal a prefix of the
/// bytes was taken, and all are still there; the put that was refused is the last one.
pub fn put_when_full<K: Sink>(out: &mut K, made: &mut Vec<u8>) -> Result<(), WriteErr>
    ensures few { length made.old.items < 65536
        → (out.new ≡ out.old) × (made.new.items ≡ made.old.items) }
    ensures ok { OnOk result (IsBuffered (K.taken out.old) (K.taken out.new)
        made.old.items made.new.items) }
    ensures left { OnOk result (length made.new.items < 65536) }
    ensures err { OnErr result (TakesFront (K.taken out.old) (K.taken out.new) made.old.items) }
    ensures kept { OnErr result (made.new.items ≡ made.old.items) }

    ensures faults { GoesOn (K.faults out.old) (K.faults out.new) }
    ensures failed { IsErrOf result WriteErr.Failed → Rose (K.faults out.old) (K.faults out.new) }
    ensures puts { 65536 ≤ length made.old.items
        → EndsAtRefusal K.put_gives made.old.items out.old result out.new }
{
    if made.len() < FULL {
        return Ok(());
    }
    put_all(out, made)?;
    made.clear();
    Ok(())
}
