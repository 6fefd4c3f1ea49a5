//! The worked cases that only Rattle can tell: memories that fail, operations that no block has, calls that the command does not
//! make, and the texts of errors. What is to be told of normal forms is in the crate `texts`, so that this one need not wait for
//! `dw_normal`; all else is told by checks/worked.txt. No part of the product: it stands above the crates whose calls it makes, for
//! a crate that holds tests is proved twice.
#![tactic(auto)]

#[cfg(test)]
mod errors;
#[cfg(test)]
mod expressions;
#[cfg(test)]
mod frames;
#[cfg(test)]
mod index;
#[cfg(test)]
mod memory;
#[cfg(test)]
mod rows;
#[cfg(test)]
mod sections;
#[cfg(test)]
mod values;
