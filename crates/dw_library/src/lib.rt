//! The reader for C: a static library, whose calls `include/dwframe.h` declares.
//!
//! A slice crosses as a pointer and a length, and an `alloc` as nothing. No export has a `requires` but what its types say: a value that is none of those
//! asked for is answered by a status. Each call that takes a size and an order may answer `BAD_ARGUMENT`, and each with an `alloc` `OUT_OF_MEMORY`.
#![tactic(auto)]

mod answer;
mod caller;
mod evaluation;
mod expressions;
mod held;
mod index;
mod names;
mod rows;
mod sections;
