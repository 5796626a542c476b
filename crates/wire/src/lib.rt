// Packets in code. Every public function takes every argument, and its contract says by a definition what it answers and writes.
// Readers that no other crate calls are the crate's own.
//
// sizes   digests_size, tags_size, candidate_size, fragment_size, share_size: lengths for a shelf's t (protocol's Values, erasure's Fragments)
// kept    the places in the bytes that a client keeps (protocol's View)
// bytes   all_zero: zeros; same: same_list; rest: drop; part: bytes_at of crate format; byte_at: get_or; number2, number4: value2, value4;
//         bytes2: print2; first_bytes, nonce_of: padded
// values  label_at: label_of; stamp_at: stamp_at_def, padded; rank_at: rank; head_at: head_at_def; CandidateHead::{blank, new, is_blank, below};
//         Stamp's own functions stand in crate protocol
// fields  byte_field, number2_field, number4_field, code_field: Reads' FieldAs, a number and the cursor past it, or None where nothing is taken
// parts   share_field, candidates_field: FieldAs too; stamp_field, any_stamp_field, write_field, candidate_field, any_candidate_field, held_field:
//         LabelledAs, with number and writer of the stamp that the part begins with
// packet  read_packet: PacketAs, decode's answer for all kinds, with its kind, the label of body_label and the number of body_number; fragment,
//         share_fragment: the part of the packet; head_field: HeadAs
// make    put, put_byte, put_number2, put_number4, put_stamp, put_head: placed; make_packet: packet_step, which is encode's bytes (proofs/Laws)
#![tactic(auto)]

pub mod bytes;
pub mod fields;
pub mod kept;
pub mod make;
pub mod packet;
pub mod parts;
pub mod sizes;
pub mod values;
