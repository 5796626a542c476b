// Writing to a buffer, and making packets.
ghost use Rattle.std.specs.Prelude.{◌≡◌, [], ◌∷◌, ◌+◌, ◌≤◌, length};
ghost use Rattle.cluster.specs.Refusals.{outcome_told};
ghost use Rattle.format.specs.Format.{print2, print4};
ghost use Rattle.protocol.specs.Packet.{head_f, stamp_f};
ghost use Rattle.wire.specs.Make.{placed, packet_step};
ghost use Rattle.format.specs.Reading.{Wrote};

use cluster::Refusal;

// The bytes written at a place where there is room for them. Byte by byte and not by `copy_from_slice`, which asks a program that links the archive
// for `memmove` where it can't see that the two lie apart.
fn copy(out: &mut [u8], at: usize, bytes: &[u8]) -> usize
    requires { at + length bytes.now ≤ length out.old }
    ensures { Wrote out.old at bytes.now out.new result }
{
    for (i, b) in bytes.iter().enumerate() {
        out[at + i] = *b;
    }
    at + bytes.len()
}

// Each put_ writes at a place, or nothing where there is no room, and answers the place past what it wrote.
pub fn put(out: &mut [u8], at: usize, bytes: &[u8]) -> usize
    ensures { record { next = result; output = out.new } ≡ placed out.old at bytes.now }
{
    if out.len() < at || out.len() - at < bytes.len() {
        return at;
    }
    copy(out, at, bytes)
}

pub fn put_byte(out: &mut [u8], at: usize, v: u8) -> usize
    ensures { record { next = result; output = out.new } ≡ placed out.old at (v ∷ []) }
{
    put(out, at, &[v])
}

pub fn put_number2(out: &mut [u8], at: usize, v: u16) -> usize
    ensures { record { next = result; output = out.new } ≡ placed out.old at (print2 v) }
{
    put(out, at, &v.to_be_bytes())
}

// Not one function with put_number2: their bytes are two definitions, print2 and print4.
pub fn put_number4(out: &mut [u8], at: usize, v: u32) -> usize
    ensures { record { next = result; output = out.new } ≡ placed out.old at (print4 v) }
{
    put(out, at, &v.to_be_bytes())
}

pub fn put_stamp(out: &mut [u8], at: usize, stamp: protocol::Stamp) -> usize
    ensures { record { next = result; output = out.new } ≡ placed out.old at (stamp_f.print stamp) }
{
    if out.len() < at || out.len() - at < crate::sizes::STAMP {
        return at;
    }
    let a = put_number4(out, at, stamp.number);
    let b = put_byte(out, a, stamp.writer);
    put(out, b, &stamp.tag)
}

pub fn put_head(out: &mut [u8], at: usize, head: protocol::Head) -> usize
    ensures { record { next = result; output = out.new } ≡ placed out.old at (head_f.print head) }
{
    if out.len() < at || out.len() - at < crate::sizes::HEAD {
        return at;
    }
    let a = put(out, at, &[head.kind, head.client, head.server, head.t]);
    put_number4(out, a, head.call)
}

// A packet of a head and of a body in two runs: its bytes over the start of the buffer, and their count.
// Runs that a buffer for every packet has no room for are no packet's body.
pub fn make_packet(
    head: protocol::Head,
    first: &[u8],
    second: &[u8],
    out: &mut [u8],
) -> Result<usize, Refusal>
    ensures { record { result = outcome_told result; output = out.new } ≡ packet_step head first.now second.now out.old }
{
    if out.len() < cluster::PACKET_ROOM {
        return Err(Refusal::Room);
    }
    let room = out.len() - crate::sizes::HEAD;
    if room < first.len() || room - first.len() < second.len() {
        return Err(Refusal::WrongSize);
    }
    let a = put_head(out, 0, head);
    let b = put(out, a, first);
    Ok(put(out, b, second))
}
