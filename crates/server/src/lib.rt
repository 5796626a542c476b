// A storage server over its lent memory. Definitions stand in crate protocol (ServerBytes) and in specs/.
//
// take    take: server_take, a packet to the server and its reply
// blank   blank: blank_step, a new server; blank_latest: specs/Blank's blank_latest_def
// memory  open: MemoryAs, decodeMemory's answer, told as Opened; find: FindAs, the history searched by a whole stamp
#![tactic(auto)]

pub mod take; // taking a packet
pub mod blank; // making a server blank
pub mod memory; // reading a server's memory
mod answers; // the answers to requests
mod store; // the answer to store
mod valid; // the test of candidates
mod repair; // the answer to repair
mod rank; // the order in which candidates are tried
mod filter; // the answer to filter
