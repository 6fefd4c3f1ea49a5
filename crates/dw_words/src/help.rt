//! The texts of `--help`, a line each, and what stands below them.

use crate::request::Name;

pub const VERSION: &str = "0.1.0";

pub const PROGRAM: &str = "Read a raw .debug_frame section, the call frame information of DWARF 5";

pub const AFTER_PROGRAM: &str =
    "FILE is the raw section, not the program that holds it. To take it out of an ELF file:
  objcopy -O binary --only-section=.debug_frame --set-section-flags .debug_frame=alloc a.out a.bin
An ELF, PE, Mach-O, ar or gzip file itself is refused. An empty file, which objcopy writes where
there is no .debug_frame, is well formed and has no entries.

Exit status:
  0  done
  1  the two sections of 'same' differ
  2  refused: a section, expression or dump is malformed; or fault: there is no value or frame
  3  wrong arguments
  4  a file cannot be read, or the output cannot be written
  5  out of memory

Example:
  dwframe rows --size 8 --order little a.bin";

// Options and operands.
pub const SIZE: &str = "Bytes of an address: 4 for ELF32, 8 for ELF64";

pub const ORDER: &str = "Byte order of the target";

pub const FILE: &str = "Raw .debug_frame section";

pub const ADDRESS: &str =
    "Addresses, 0x and 1 to 16 hexadecimal digits [default: those of standard input, one a line]";

pub const FILE2: &str = "Raw .debug_frame section to compare with";

pub const HEX: &str = "Bytes of the expression in hexadecimal, two digits a byte, without 0x";

pub const DUMP: &str = "Dump of registers and memory";

pub const DUMP_OF_EVAL: &str = "Dump of registers and memory [default: none of them]";

pub const FRAME: &str = "Take only the operations that a rule of a call frame may hold";

pub const STEPS: &str = "Most operations an expression may execute, decimal [default: 10000]";

pub const START: &str =
    "Value on the stack at the start, below 2^32 or 2^64 by --size [default: none]";

pub const DEFAULT: &str = "What a register without a rule is taken for: unchanged or undefined";

pub const CAP: &str =
    "Most bytes of the normal form, decimal, 0 to 2147483647 [default: 2147483647]";

// What stands below the options of a subcommand over a file: what its statuses say, and an example by its name and the words behind the target.
macro_rules! after {
    ($done:literal, $name:literal, $words:literal) => {
        concat!(
            "Exit status: ",
            $done,
            ", 3 wrong arguments, 4 file or output fails, 5 out of memory\n\nExample:\n  dwframe ",
            $name,
            " --size 8 --order little ",
            $words
        )
    };
}

// And of one over a dump.
macro_rules! after_dump {
    ($example:literal) => {
        concat!(
            "Lines of a dump:
  pc 0x<hex>           the program counter
  r<n> 0x<hex>         the value of register n
  mem 0x<hex> <bytes>  memory from an address on, two hexadecimal digits a byte

Exit status: 0 done, 2 refused or fault, 3 wrong arguments, 4 file or output fails, 5 out of memory

Example",
            $example
        )
    };
}

/// What a subcommand does, and what stands below its options.
pub(crate) fn of(name: Name) -> (&'static str, &'static str) {
    match name {
        Name::At => (
            "Print the FDE that covers each of some addresses, and its rules there",
            after!("0 done, 2 refused", "at", "a.bin 0x401004 0x401234"),
        ),
        Name::Check => (
            "Tell whether a section is well formed, and count its entries",
            after!("0 well formed, 2 refused", "check", "a.bin"),
        ),
        Name::Cost => (
            "Print the bytes and the rows of a section and of its normal form",
            after!("0 done, 2 refused", "cost", "a.bin"),
        ),
        Name::Entries => (
            "List the CIEs and FDEs of a section by place",
            after!("0 done, 2 refused", "entries", "a.bin"),
        ),
        Name::Eval => (
            "Print the value of an expression over the registers and memory of a dump",
            after_dump!(", which prints '0xa':\n  dwframe eval --size 8 --order little 35321e"),
        ),
        Name::Expr => (
            "Print the operations of an expression and its shortest encoding",
            "Exit status: 0 done, 2 refused, 3 wrong arguments, 4 output fails, 5 out of memory

Example, which prints '0 const 5' and 'least 35':
  dwframe expr --size 8 --order little 0805",
        ),
        Name::Normal => (
            "Write the normal form of a section, which is equal for sections that mean the same",
            after!("0 done, 2 refused", "normal", "a.bin > a.normal"),
        ),
        Name::Rows => (
            "Print the rules of the CFA and of registers at each address where they change",
            after!("0 done, 2 refused", "rows", "a.bin"),
        ),
        Name::Same => (
            "Tell whether two sections mean the same: ranges, return address registers, rules at each address",
            after!("0 same, 1 different, 2 refused", "same", "a.bin b.bin"),
        ),
        Name::Unwind => (
            "Print the caller's frame of a machine that stopped: its CFA and registers",
            after_dump!(
                ":\n  dwframe unwind --size 8 --order little --default same a.bin stopped.dump"
            ),
        ),
    }
}
