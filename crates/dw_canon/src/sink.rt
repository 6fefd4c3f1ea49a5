//! What a normal form is written to.

ghost use Rattle.std.specs.{Prelude.{◌≡◌, ℕ, ◌<◌, ◌≤◌, ◌-◌, ◌^◌, List, length, take, Option, IfOk, IfErr}, Io.KnownBytes.{Appends, Keeps}};

use thiserror::Error;

/// A sink failed.
#[derive(Clone, Copy, Debug, PartialEq, Eq, Error)]
#[error("the sink failed")]
pub struct SinkFault;

/// The bytes that a sink holds, where it tells them, and a count of how often it failed.
pub trait Sink {
    ghost taken: { Self → Option (List ℕ) };

    ghost failures: { Self → ℕ };

    /// Takes some of these bytes from the front, at least one, and answers how many. A fault is answered exactly where the
    /// count of failures grew, and nothing was taken then.
    fn put(&mut self, bytes: &[u8]) -> Result<usize, SinkFault>
        requires some { 0 < length bytes.now }
        requires room { failures self.old < 2 ^ 64 - 1 }
        ensures took { IfOk result (λ n. (1 ≤ n) × (n ≤ length bytes.now) × (failures self.new ≡ failures self.old)
            × Appends (taken self.old) (taken self.new) (take n bytes.now)) }
        ensures fault { IfErr result (λ _. (failures self.old < failures self.new) × Keeps (taken self.old) (taken self.new)) };
}
