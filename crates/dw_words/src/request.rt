//! What words may ask for.

ghost use Rattle.std.specs.Prelude.{◌≡◌, ◌≤◌};
ghost use Rattle.dw_words.specs.declared.request.PlanError.TheVariants.{OutOfMemory};

use dw_eval::Policy;
use dw_num::Target;
use dw_op::Profile;
use std::alloc::AllocError;
use thiserror::Error;

/// What is asked for.
pub enum Request<'a> {
    /// A subcommand is to be run.
    Run(Job<'a>),
    /// A text: of help, or the version.
    Help(clap::Error),
}

/// A run.
pub struct Job<'a> {
    /// What `--size` and `--order` say.
    pub target: Target,
    /// The subcommand with its values.
    pub task: Task<'a>,
}

/// A subcommand.
#[derive(Clone, Copy, Debug, PartialEq, Eq)]
pub enum Name {
    /// `dwframe at`.
    At,
    /// `dwframe check`.
    Check,
    /// `dwframe cost`.
    Cost,
    /// `dwframe entries`.
    Entries,
    /// `dwframe eval`.
    Eval,
    /// `dwframe expr`.
    Expr,
    /// `dwframe normal`.
    Normal,
    /// `dwframe rows`.
    Rows,
    /// `dwframe same`.
    Same,
    /// `dwframe unwind`.
    Unwind,
}

/// A subcommand with its own options and operands. Files are named by their paths.
pub enum Task<'a> {
    /// `dwframe at`: the path of the section, and the addresses that are looked up.
    At(Lookup<'a>),
    /// `dwframe check`: the path of the section.
    Check { path: &'a str },
    /// `dwframe cost`: the path of the section.
    Cost { path: &'a str },
    /// `dwframe entries`: the path of the section.
    Entries { path: &'a str },
    /// `dwframe eval`: the expression, and what it is evaluated over.
    Eval(Evaluation<'a>),
    /// `dwframe expr`: `Frame` where `--frame` is given and else `Location`, and the bytes of `HEX`.
    Expr { profile: Profile, block: Vec<u8> },
    /// `dwframe normal`: the path of the section, and the most bytes of the normal form.
    Normal(Writing<'a>),
    /// `dwframe rows`: the path of the section.
    Rows { path: &'a str },
    /// `dwframe same`: the paths of the first section and of the second.
    Same { path: &'a str, other: &'a str },
    /// `dwframe unwind`: the paths of the section and of the dump, with `--default` and `--steps`.
    Unwind(Unwinding<'a>),
}

/// A section, and the addresses that are looked up in it.
#[derive(Drop)]
pub struct Lookup<'a> {
    /// The path of the section.
    pub path: &'a str,
    /// Addresses of the target, in the order of the words. Where there are none, the lines of standard input have them.
    pub addresses: Vec<u64>,
}

/// An expression with what it is evaluated over.
#[derive(Drop)]
pub struct Evaluation<'a> {
    /// The most operations that are executed.
    pub steps: u64,
    /// What is on the stack at the start, an address of the target.
    pub start: Option<u64>,
    /// The bytes of `HEX`.
    pub block: Vec<u8>,
    /// The path of the dump, where one is named.
    pub dump: Option<&'a str>,
}

/// A section, and the most bytes that its normal form may have.
#[derive(Drop)]
pub struct Writing<'a> {
    /// `--cap`, in bytes, at most 2,147,483,647.
    pub cap: u64,
    /// The path of the section.
    pub path: &'a str,
    ghost capped: { cap ≤ 2147483647 },
}

/// A section and a dump, what is taken of registers that no instruction has set, and the most operations that an expression executes.
#[derive(Drop)]
pub struct Unwinding<'a> {
    /// `--default`.
    pub default: Policy,
    /// `--steps`.
    pub steps: u64,
    /// The path of the section.
    pub path: &'a str,
    /// The path of the dump.
    pub dump: &'a str,
}

/// Why there is no plan.
#[derive(Debug, Drop, Error)]
pub enum PlanError {
    /// The value of an option or an operand, by its name, is none that it may have.
    #[error("bad value for {0}")]
    BadValue(&'static str),
    /// The words are none of the command's.
    #[error("{0}")]
    Words(clap::Error),
    /// A request for memory was refused.
    #[error("out of memory")]
    OutOfMemory,
}

impl From<AllocError> for PlanError {
    ghost from_gives = { λ _ e. e ≡ OutOfMemory };

    fn from(_error: AllocError) -> PlanError {
        PlanError::OutOfMemory
    }
}
