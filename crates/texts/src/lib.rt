//! What the command answers where an output fails or memory lacks, and normal forms into sinks that fail. What the command prints
//! else is told by checks/worked.txt. This stands in a crate of its own, for a crate that holds tests is proved twice.
#![tactic(auto)]

#[cfg(test)]
mod errors;
#[cfg(test)]
mod outputs;
#[cfg(test)]
mod runs;
#[cfg(test)]
mod sinks;
