// The library's functions for C and Rust, on numbers and slices only; crate embed_c exports them, and include/cendrulas.h declares them.
// A crate has symbols for C or is a library that others cite, so each function stands in both, with the same clauses.
#![tactic(auto)]

pub mod clients;
pub mod coding;
pub mod digests;
pub mod drills;
mod keys;
mod pack;
pub mod packets;
pub mod plans;
pub mod replies;
pub mod rounds;
pub mod servers;
pub mod versions;
pub mod weights;
