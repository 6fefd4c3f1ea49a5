//! The expressions of a row, in buffers that the caller lends.

ghost use Rattle.std.specs.Prelude.{◌≡◌, ◌⊎◌, [], ◌∷◌, IfOk, OnOk};
ghost use Rattle.dw_library.specs.{Answers.{out_of_memory, target_of}, Expressions.{AreAnyExpressions, AreBlocks, AreExpressions, Buffers}};
ghost use Rattle.dw_library.specs.{Expressions.{TellsBlocks, Told, expressions_of, in_cfa, in_rule, no_blocks, says}, Inner.Expressions.Adds};

use crate::answer::{Refused, Section, refuse, target_of};
use crate::caller::COLUMN_CFA;
use crate::names::Status;
use dw_cfa::RowRoom;
use dw_op::ExprRef;
use dw_row::{CfaRule, RegRule, Row};
use dw_section::{LookUpError, Ranged, look_up};
use std::alloc::{AllocError, Global};

/// Where the block of an expression stands among the bytes. Its rule is set by `DW_CFA_def_cfa_expression`, `DW_CFA_expression` or
/// `DW_CFA_val_expression` (6.4.2.2, 6.4.2.3).
#[repr(C)]
#[derive(Clone, Copy)]
pub struct Block {
    /// A register's number, or 65536 for the CFA.
    pub column: u32,
    /// 0.
    pub reserved: u32,
    /// Its first byte, counted from the buffer's first one.
    pub place: usize,
    /// How many bytes it has.
    pub len: usize,
}

/// How many expressions a row has, and how many bytes their blocks have together. Both are 0 where there is no row.
#[repr(C)]
#[derive(Clone, Copy, Default)]
pub struct Blocks {
    /// How many expressions.
    pub count: usize,
    /// How many bytes.
    pub len: usize,
}

// Least blocks one after another, and where each stands.
#[derive(Drop)]
struct Gathered {
    blocks: Vec<Block>,
    bytes: Vec<u8>,
}

impl Gathered {
    fn add(&mut self, column: u32, expression: &ExprRef<'_>) -> Result<(), AllocError>
        ensures { OnOk result (Adds ((column, expression.now) ∷ []) self.old self.new) }
    {
        let place = self.bytes.len();
        expression.put_least(&mut self.bytes)?;
        let len = self.bytes.len() - place;
        self.blocks.push(Block {
            column,
            reserved: 0,
            place,
            len,
        })?;
        Ok(())
    }

    fn add_cfa(&mut self, rule: &CfaRule<'_>) -> Result<(), AllocError>
        ensures { OnOk result (Adds (in_cfa rule.now) self.old self.new) }
    {
        match rule {
            CfaRule::Expression(expression) => self.add(COLUMN_CFA, expression),
            _ => Ok(()),
        }
    }

    fn add_rule(&mut self, register: u16, rule: &RegRule<'_>) -> Result<(), AllocError>
        ensures { OnOk result (Adds (in_rule register rule.now) self.old self.new) }
    {
        match rule {
            RegRule::Expression(expression) | RegRule::ValExpression(expression) => {
                self.add(u32::from(register), expression)
            }
            _ => Ok(()),
        }
    }
}

// The blocks of a row's expressions.
fn gather(alloc: Global, row: &Row<'_>) -> Result<Gathered, AllocError>
    ensures { IfOk result (λ g. AreBlocks 0 (expressions_of row.now) g.blocks.items g.bytes.items) }
{
    let mut all = Gathered {
        blocks: Vec::new(alloc),
        bytes: Vec::new(alloc),
    };
    all.add_cfa(&row.cfa())?;
    for (register, rule) in row.specified() {
        all.add_rule(register, &rule)?;
    }
    Ok(all)
}

// Writes the expressions of a row to the fronts of two buffers, where both fit.
fn put_blocks(
    alloc: Global,
    row: &Row<'_>,
    bytes: &mut [u8],
    blocks: &mut [Block],
    all: &mut Blocks,
) -> u32
    requires none { all.old ≡ no_blocks }
    ensures { let old : Buffers = record { blocks = blocks.old; bytes = bytes.old } in
        let told : Told = record { status = result; buffers = record { blocks = blocks.new; bytes = bytes.new }; all = all.new } in
        TellsBlocks row.now old told ⊎ (told ≡ says out_of_memory old) }
{
    let Ok(gathered) = gather(alloc, row) else {
        return Status::OutOfMemory as u32;
    };
    let (count, len) = (gathered.blocks.len(), gathered.bytes.len());
    *all = Blocks { count, len };
    if blocks.len() < count || bytes.len() < len {
        return Status::TooShort as u32;
    }
    blocks[..count].copy_from_slice(&gathered.blocks);
    bytes[..len].copy_from_slice(&gathered.bytes);
    Status::Ok as u32
}

/// The expressions of the row at an address, by an index: that of the CFA, and then those of the registers, ascending. Each is
/// told by the shortest block of its operations. The blocks are written to `expressions`, one after another, and where each stands to
/// `blocks`. Where either does not fit it answers `TOO_SHORT`, `all` says what is needed, and both stay.
#[unsafe(no_mangle)]
pub extern "C" fn dwframe_expressions_at(
    alloc: Global,
    section: &Section<'_>,
    index: &[Ranged],
    address: u64,
    expressions: &mut [u8],
    blocks: &mut [Block],
    all: &mut Blocks,
    refused: &mut Refused,
) -> u32
    // By the index of an accepted section they are those of the section's rules.
    ensures own { let old : Buffers = record { blocks = blocks.old; bytes = expressions.old } in
        let told : Told = record { status = result; buffers = record { blocks = blocks.new; bytes = expressions.new }; all = all.new } in
        AreExpressions (target_of section.now.address_size section.now.byte_order) section.now.bytes.now index.now address old told refused.new }
    // By any other they are those of the FDE that stands where an entry that covers the address leads, or none.
    ensures any { let old : Buffers = record { blocks = blocks.old; bytes = expressions.old } in
        let told : Told = record { status = result; buffers = record { blocks = blocks.new; bytes = expressions.new }; all = all.new } in
        AreAnyExpressions (target_of section.now.address_size section.now.byte_order) section.now.bytes.now index.now address old told refused.new }
{
    *all = Blocks::default();
    *refused = Refused::default();
    let Some(target) = target_of(section.address_size, section.byte_order) else {
        return Status::BadArgument as u32;
    };
    let mut room = RowRoom::new(alloc);
    match look_up(section.bytes, target, index, address, &mut room) {
        Ok(Some(_)) => put_blocks(alloc, room.row(), expressions, blocks, all),
        Ok(None) => Status::NoFde as u32,
        Err(LookUpError::Refused(refusal)) => refuse(refused, 1, refusal),
        Err(LookUpError::BadIndex) => Status::BadIndex as u32,
        Err(LookUpError::OutOfMemory) => Status::OutOfMemory as u32,
    }
}
