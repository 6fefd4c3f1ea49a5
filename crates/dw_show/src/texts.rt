//! How operations (DWARF 5, 7.7.1, with names in lower case) and rows are printed: under the line of an FDE one for each address from which rules are others.

ghost use Rattle.std.specs.Prelude.{◌≡◌, ◌+◌, ◌++◌, ◌^◌, ◌≤◌, codes, length, None};
ghost use Rattle.hex.specs.Hex.{encode_lower};
ghost use Rattle.dw_show.specs.{OpTexts.{bytes_text, number_text, op_name, op_text, operands_text, signed_text}, RowTexts.{at_text, cfa_text, column_text}};
ghost use Rattle.dw_show.specs.{RowTexts.{fde_text, operations_text, row_text, rule_text}, declared.listing.TheConstants.ROOM, Listing.Adds};

use crate::listing::Listing;
use dw_op::{ExprRef, Op};
use dw_row::{CfaRule, RegRule, Row};
use dw_section::Fde;
use std::io::Write;

fn name_of(op: &Op<'_>) -> &'static str
    ensures name { result.now ≡ op_name op.now }
    ensures short { length result.now ≤ 20 }
{
    match op {
        Op::Addr(_) => "addr",
        Op::Deref => "deref",
        Op::Const(_) => "const",
        Op::Dup => "dup",
        Op::Drop => "drop",
        Op::Over => "over",
        Op::Pick(_) => "pick",
        Op::Swap => "swap",
        Op::Rot => "rot",
        Op::Abs => "abs",
        Op::And => "and",
        Op::Div => "div",
        Op::Minus => "minus",
        Op::Mod => "mod",
        Op::Mul => "mul",
        Op::Neg => "neg",
        Op::Not => "not",
        Op::Or => "or",
        Op::Plus => "plus",
        Op::PlusUconst(_) => "plus_uconst",
        Op::Shl => "shl",
        Op::Shr => "shr",
        Op::Shra => "shra",
        Op::Xor => "xor",
        Op::Bra(_) => "bra",
        Op::Eq => "eq",
        Op::Ge => "ge",
        Op::Gt => "gt",
        Op::Le => "le",
        Op::Lt => "lt",
        Op::Ne => "ne",
        Op::Skip(_) => "skip",
        Op::Reg(_) => "reg",
        Op::Breg(_, _) => "breg",
        Op::Fbreg(_) => "fbreg",
        Op::Piece(_) => "piece",
        Op::DerefSize(_) => "deref_size",
        Op::Nop => "nop",
        Op::PushObjectAddress => "push_object_address",
        Op::CallFrameCfa => "call_frame_cfa",
        Op::BitPiece(_, _) => "bit_piece",
        Op::Implicit(_) => "implicit_value",
        Op::StackValue => "stack_value",
    }
}

// A number behind a space.
fn put_number<W: Write>(listing: &mut Listing<W>, number: u64)
    ensures { Adds W.contents listing.old listing.new (number_text number) }
{
    listing.make_room();
    listing.text(b" ");
    listing.decimal(number);
}

fn put_signed<W: Write>(listing: &mut Listing<W>, number: i64)
    ensures { Adds W.contents listing.old listing.new (signed_text number) }
{
    listing.make_room();
    listing.text(if number < 0 { b" -" } else { b" " });
    listing.decimal(number.unsigned_abs());
}

/// Puts bytes as pairs of hexadecimal digits in lower case.
pub fn put_hex<W: Write>(listing: &mut Listing<W>, bytes: &[u8])
    ensures { Adds W.contents listing.old listing.new (encode_lower bytes.now) }
{
    for byte in bytes {
        listing.make_room();
        let mut pair = [0; 2];
        let _ = hex::encode_to_slice([*byte], &mut pair);
        listing.text(&pair);
    }
}

// Bytes behind a space, or a dash for none.
fn put_bytes<W: Write>(listing: &mut Listing<W>, bytes: &[u8])
    ensures { Adds W.contents listing.old listing.new (bytes_text bytes.now) }
{
    listing.make_room();
    if bytes.is_empty() {
        listing.text(b" -");
        return;
    }
    listing.text(b" ");
    put_hex(listing, bytes);
}

#[tactic(auto, using(crate::proofs::Lent::Endings::on))]
fn put_operands<W: Write>(listing: &mut Listing<W>, op: &Op<'_>)
    ensures { Adds W.contents listing.old listing.new (operands_text op.now) }
{
    match *op {
        Op::Addr(address) => {
            listing.make_room();
            listing.text(b" 0x");
            listing.hex(address);
        }
        Op::Const(number) | Op::PlusUconst(number) | Op::Piece(number) => {
            put_number(listing, number);
        }
        Op::Pick(number) | Op::DerefSize(number) => put_number(listing, u64::from(number)),
        Op::Bra(index) | Op::Skip(index) => put_number(listing, index as u64),
        Op::Reg(register) => put_number(listing, u64::from(register)),
        Op::Breg(register, number) => {
            put_number(listing, u64::from(register));
            put_signed(listing, number);
        }
        Op::Fbreg(number) => put_signed(listing, number),
        Op::BitPiece(size, offset) => {
            put_number(listing, size);
            put_number(listing, offset);
        }
        Op::Implicit(bytes) => put_bytes(listing, bytes),
        _ => {}
    }
}

/// Puts an operation: its name and its operands, decimal but for an address. Branches name operations.
pub fn put_op<W: Write>(listing: &mut Listing<W>, op: &Op<'_>)
    ensures { Adds W.contents listing.old listing.new (op_text op.now) }
{
    listing.make_room();
    listing.text(name_of(op).as_bytes());
    put_operands(listing, op);
}

// The operations of an expression between two texts.
fn put_expr<W: Write>(out: &mut Listing<W>, front: &[u8], expression: &ExprRef<'_>, behind: &[u8])
    requires room { out.old.len + length front.now ≤ ROOM }
    requires short { length behind.now ≤ 2 }
    ensures { Adds W.contents out.old out.new (front.now ++ operations_text expression.now.ops ++ behind.now) }
{
    out.text(front);
    let mut between = b"".as_slice();
    for op in expression.steps() {
        out.make_room();
        out.text(between);
        put_op(out, &op);
        between = b"; ".as_slice();
    }
    out.make_room();
    out.text(behind);
}

#[inline(always)]
fn put_cfa<W: Write>(listing: &mut Listing<W>, rule: &CfaRule<'_>)
    requires made { listing.old.len + 96 ≤ ROOM }
    ensures { Adds W.contents listing.old listing.new (codes " cfa=" ++ cfa_text rule.now) }
{
    match rule {
        // No row that is printed is without it.
        CfaRule::Unset => listing.text(b" cfa="),
        CfaRule::Register { register, offset } => {
            listing.text(b" cfa=r");
            listing.decimal(u64::from(*register));
            listing.offset(*offset);
        }
        CfaRule::Expression(expression) => put_expr(listing, b" cfa=expr(", expression, b")"),
    }
}

// The rule of a register. One that reads memory stands in brackets.
#[tactic(auto, using(crate::proofs::Lent::Endings::on))]
#[inline(always)]
fn put_rule<W: Write>(listing: &mut Listing<W>, rule: &RegRule<'_>)
    requires made { listing.old.len + 64 ≤ ROOM }
    ensures { Adds W.contents listing.old listing.new (codes "=" ++ rule_text rule.now) }
{
    match rule {
        // It is not listed.
        RegRule::Unspecified => listing.text(b"="),
        RegRule::Undefined => listing.text(b"=u"),
        RegRule::SameValue => listing.text(b"=s"),
        RegRule::Offset(offset) => {
            listing.text(b"=[cfa");
            listing.offset(*offset);
            listing.text(b"]");
        }
        RegRule::ValOffset(offset) => {
            listing.text(b"=cfa");
            listing.offset(*offset);
        }
        RegRule::Register(other) => {
            listing.text(b"=r");
            listing.decimal(u64::from(*other));
        }
        RegRule::Expression(expression) => put_expr(listing, b"=[expr(", expression, b")]"),
        RegRule::ValExpression(expression) => put_expr(listing, b"=expr(", expression, b")"),
    }
}

#[inline(always)]
fn put_column<W: Write>(listing: &mut Listing<W>, register: u16, rule: &RegRule<'_>)
    ensures { Adds W.contents listing.old listing.new (column_text (register, rule.now)) }
{
    listing.make_room();
    listing.text(b" r");
    listing.decimal(u64::from(register));
    put_rule(listing, rule);
}

/// Puts the line of an FDE: the addresses that it covers, up to its end, and its return address register.
pub fn put_fde<W: Write>(listing: &mut Listing<W>, fde: &Fde)
    requires in_space { fde.now.end ≤ 2 ^ 64 }
    ensures { Adds W.contents listing.old listing.new (fde_text fde.now) }
{
    listing.make_room();
    listing.text(b"fde 0x");
    listing.hex(fde.begin);
    listing.text(b" 0x");
    listing.address(fde.end);
    listing.text(b" ra=r");
    listing.decimal(u64::from(fde.return_register));
    listing.text(b"\n");
}

/// Puts the line of an address that no FDE covers.
pub fn put_none<W: Write>(listing: &mut Listing<W>, address: u64)
    ensures { Adds W.contents listing.old listing.new (at_text (address, None)) }
{
    listing.make_room();
    listing.text(b" 0x");
    listing.hex(address);
    listing.text(b" none\n");
}

/// Puts the line of a row: the address from which it holds, the CFA's rule, and the specified registers' rules.
#[inline(always)]
pub fn put_row<W: Write>(listing: &mut Listing<W>, address: u128, row: &Row<'_>)
    requires in_space { address ≤ 2 ^ 64 }
    ensures { Adds W.contents listing.old listing.new (row_text (address, row.now)) }
{
    listing.make_room();
    listing.text(b" 0x");
    listing.address(address);
    put_cfa(listing, row.cfa_rule());
    let mut columns = row.specified();
    'columns: loop {
        if let Some((register, offset)) = columns.next_offset() {
            put_column(listing, register, &RegRule::Offset(offset));
            continue;
        }
        let Some((register, rule)) = columns.next() else {
            break;
        };
        put_column(listing, register, &rule);
    }
    listing.make_room();
    listing.text(b"\n");
}
