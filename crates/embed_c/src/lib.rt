// The exported functions: crate embed's under the names that C links, each with the clauses of what it calls. include/cendrulas.h declares them.
#![tactic(auto)]

mod clients;
mod coding;
mod digests;
mod drills;
mod packets;
mod plans;
mod replies;
mod rounds;
mod servers;
mod versions;
mod weights;
