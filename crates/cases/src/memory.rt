//! A dump's memory whose device fails at one read.

ghost use Rattle.dw_dump.specs.Ranges.{byte_in};

use dw_eval::{Memory, ReadFault};
use dw_num::Order;
use dw_unwind::DumpMemory;

#[derive(Drop)]
pub(crate) struct Failing {
    pub(crate) memory: DumpMemory,
    /// Which read fails. Where it is 0, none does.
    pub(crate) failing: u64,
    pub(crate) reads: u64,
    pub(crate) failures: u64,
}

impl Memory for Failing {
    ghost byte = { λ m. byte_in m.memory };

    ghost failures = { λ m. m.failures };

    fn read(&mut self, address: u64, len: usize, order: Order) -> Result<u64, ReadFault> {
        self.reads = self.reads.wrapping_add(1);
        if self.reads == self.failing {
            self.failures += 1;
            return Err(ReadFault::Device);
        }
        self.memory.read(address, len, order)
    }
}
