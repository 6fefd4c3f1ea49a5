//! A memory that may fail.

ghost use Rattle.std.specs.Prelude.{◌≡◌, ℕ, ◌<◌, ◌≤◌, ◌-◌, ◌^◌, Option, Some, None, IfOk};
ghost use Rattle.dw_eval.specs.Bytes.{number_in_memory};

use dw_num::Order;
use thiserror::Error;

/// Why a read has no answer.
#[derive(Clone, Copy, Debug, PartialEq, Eq, Error)]
pub enum ReadFault {
    /// A byte is missing.
    #[error("a byte is missing")]
    Unreadable,
    /// The device failed.
    #[error("the device failed")]
    Device,
}

/// Bytes by their addresses, and a count of how often the device failed. A read changes no byte.
pub trait Memory {
    ghost byte: { Self → ℕ → Option ℕ };

    ghost failures: { Self → ℕ };

    /// The number that the bytes from an address on spell in an order, where all of them are there. `len` is
    /// from 1 to 8. `Unreadable` says that a byte is missing; `Device` is answered exactly where the count of failures grew.
    fn read(&mut self, address: u64, len: usize, order: Order) -> Result<u64, ReadFault>
        requires some { 1 ≤ len }
        requires most { len ≤ 8 }
        requires room { failures self.old < 2 ^ 64 - 1 }
        ensures same { byte self.new ≡ byte self.old }
        ensures found { IfOk result (λ v. (number_in_memory (byte self.old) order address len ≡ Some v) × (failures self.new ≡ failures self.old)) }
        ensures missing { result ≡ Err ReadFault.Unreadable →
            (number_in_memory (byte self.old) order address len ≡ None) × (failures self.new ≡ failures self.old) }
        ensures device { result ≡ Err ReadFault.Device → failures self.old < failures self.new };
}
