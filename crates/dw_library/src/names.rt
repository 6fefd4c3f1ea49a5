//! The names of statuses, of refusals and of faults.

ghost use Rattle.std.specs.Prelude.{◌≡◌, MatchOption, length};
ghost use Rattle.dw_num.specs.{Codes.code_entry, declared.refusal.Code.{Code as TheCode}};
ghost use Rattle.dw_eval.specs.{Kinds.kind_entry, declared.error.Kind.{Kind as TheKind}};
ghost use Rattle.dw_library.specs.{Named.{HoldsText, IsNamed, IsNamedBy, status_entry}, declared.names.Status.{Status as TheStatus}};

use dw_eval::Kind;
use dw_num::Code;

/// What a call answers, by the numbers of `include/dwframe.h`.
#[derive(Clone, Copy)]
pub enum Status {
    /// The call has its answer.
    Ok,
    /// A section or an expression is refused.
    Refused,
    /// A request for memory was refused.
    OutOfMemory,
    /// An argument is none that the call takes.
    BadArgument,
    /// The room that was lent is too short.
    TooShort,
    /// No FDE covers the address.
    NoFde,
    /// An expression has no value.
    NoValue,
    /// A byte of a saved register is in no window.
    Unreadable,
    /// A register that is asked for is not given.
    NoRegister,
    /// The memory failed.
    Device,
    /// The index is not the one of these bytes.
    BadIndex,
}

impl Status {
    fn name(self) -> &'static str
        ensures { result.now ≡ (status_entry self).1 }
    {
        match self {
            Status::Ok => "Ok",
            Status::Refused => "Refused",
            Status::OutOfMemory => "OutOfMemory",
            Status::BadArgument => "BadArgument",
            Status::TooShort => "TooShort",
            Status::NoFde => "NoFde",
            Status::NoValue => "NoValue",
            Status::Unreadable => "Unreadable",
            Status::NoRegister => "NoRegister",
            Status::Device => "Device",
            Status::BadIndex => "BadIndex",
        }
    }
}

// The status with a number, 0 to 10.
fn status_of(number: u32) -> Option<Status>
    ensures { MatchOption result ((s : TheStatus) → number ≡ (status_entry s).0 → ⊥) (λ s. number ≡ (status_entry s).0) }
{
    Some(match number {
        0 => Status::Ok,
        1 => Status::Refused,
        2 => Status::OutOfMemory,
        3 => Status::BadArgument,
        4 => Status::TooShort,
        5 => Status::NoFde,
        6 => Status::NoValue,
        7 => Status::Unreadable,
        8 => Status::NoRegister,
        9 => Status::Device,
        10 => Status::BadIndex,
        _ => return None,
    })
}

// The fault of an expression with a number, 1 to 12.
fn kind_of(number: u32) -> Option<Kind>
    ensures { MatchOption result ((k : TheKind) → number ≡ (kind_entry k).0 → ⊥) (λ k. number ≡ (kind_entry k).0) }
{
    Some(match number {
        1 => Kind::StackUnderflow,
        2 => Kind::DivideByZero,
        3 => Kind::NoRegister { register: 0 },
        4 => Kind::Unreadable { address: 0, len: 0 },
        5 => Kind::Device,
        6 => Kind::StepLimit,
        7 => Kind::EmptyResult,
        8 => Kind::NotAValue,
        9 => Kind::NoFrameBase,
        10 => Kind::NoCfa,
        11 => Kind::NoObject,
        12 => Kind::MissingPiece,
        _ => return None,
    })
}

// The code with a number, 1 to 27.
fn code_of(number: u32) -> Option<Code>
    ensures { MatchOption result ((c : TheCode) → number ≡ (code_entry c).0 → ⊥) (λ c. number ≡ (code_entry c).0) }
{
    Some(match number {
        1 => Code::Truncated,
        2 => Code::ReservedLength,
        3 => Code::EntryPastEnd,
        4 => Code::BadVersion,
        5 => Code::Augmentation,
        6 => Code::AddressSize,
        7 => Code::SegmentSelector,
        8 => Code::NumberTooLarge,
        9 => Code::RegisterTooLarge,
        10 => Code::NoSuchCie,
        11 => Code::RangeTooLarge,
        12 => Code::UnknownInstruction,
        13 => Code::NotInCie,
        14 => Code::LocationBackwards,
        15 => Code::LocationTooLarge,
        16 => Code::EmptyStateStack,
        17 => Code::StateStackFull,
        18 => Code::CfaNotRegister,
        19 => Code::OffsetTooLarge,
        20 => Code::UnknownOperation,
        21 => Code::NotInFrame,
        22 => Code::BadBranch,
        23 => Code::BadDerefSize,
        24 => Code::NoCfaRule,
        25 => Code::Overlap,
        26 => Code::SectionTooLarge,
        27 => Code::NormalTooLong,
        _ => return None,
    })
}

// Writes a text and a zero byte, where both fit, and tells the length of the text.
fn put_text(text: &str, out: &mut [u8]) -> usize
    ensures put { HoldsText text.now out.old out.new }
    ensures len { result ≡ length text.now }
{
    let text = text.as_bytes();
    if text.len() < out.len() {
        out[..text.len()].copy_from_slice(text);
        out[text.len()] = 0;
    }
    text.len()
}

/// Writes the name of a refusal's code and a zero byte behind it, where both fit into `name`, which else stays. Answers the
/// length of the name, without the zero byte, or 0 where no refusal has that code.
#[unsafe(no_mangle)]
pub extern "C" fn dwframe_refusal_name(code: u32, name: &mut [u8]) -> usize
    ensures { IsNamed code name.old name.new result }
{
    match code_of(code) {
        Some(code) => put_text(code.name(), name),
        None => 0,
    }
}

/// Writes the name of a status and a zero byte behind it, where both fit into `name`, which else stays. Answers the length of
/// the name, without the zero byte, or 0 where no status has that number.
#[unsafe(no_mangle)]
pub extern "C" fn dwframe_status_name(status: u32, name: &mut [u8]) -> usize
    ensures { IsNamedBy status_entry status name.old name.new result }
{
    match status_of(status) {
        Some(status) => put_text(status.name(), name),
        None => 0,
    }
}

/// The same of the fault of an expression.
#[unsafe(no_mangle)]
pub extern "C" fn dwframe_fault_name(kind: u32, name: &mut [u8]) -> usize
    ensures { IsNamedBy kind_entry kind name.old name.new result }
{
    match kind_of(kind) {
        Some(kind) => put_text(kind.name(), name),
        None => 0,
    }
}
