//! Programs that are borrowed from a section.

ghost use Rattle.std.specs.Prelude.{◌+◌, ◌≤◌, length};

/// The instructions of an entry (`initial_instructions` of a CIE and `instructions` of an FDE, 6.4.1, with their `padding`): a
/// slice of a section and its place there. The place of its end is at most 2,147,483,647, the longest section that is read.
#[derive(Clone, Copy, Debug, PartialEq, Eq)]
pub struct Program<'a> {
    /// The bytes of the instructions, `DW_CFA_nop`s of the padding among them.
    pub bytes: &'a [u8],
    /// The place of the first of them in the section.
    pub at: u64,
    ghost in_section: { at + length bytes.now ≤ 2147483647 },
}
