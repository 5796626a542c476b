// The bench cards that are run: a history that is full, and the lengths of a content.
use cluster::Refusal;
use protocol::codes::Code;
use protocol::kinds::Kind;
use std::io;

// Bytes of a fragment of the longest content at t = 1, and of its store: head, stamp, length, fragment, 4 digests, nonce digest, 4 tags.
const FRAGMENT: usize = cluster::TOP_LENGTH / 2;

const STORE: usize = wire::sizes::HEAD
    + wire::sizes::STAMP
    + 2
    + FRAGMENT
    + 4 * wire::sizes::DIGEST
    + wire::sizes::DIGEST
    + 4 * hmac::TAG;

// Bytes of a complete: head, stamp, nonce, 4 tags.
const COMPLETE: usize = wire::sizes::HEAD + wire::sizes::STAMP + wire::sizes::NONCE + 4 * hmac::TAG;

// A card's name, what was answered, and whether that is what the card says.
fn show(rt: &impl Print, name: &str, got: u64, card: u64) -> io::Result<()> {
    let told = if got == card { "right" } else { "wrong" };
    println!(rt; "{name}{got} {told}")
}

// A packet's head by client 1 to server 1 at t = 1.
fn put_kind(packet: &mut [u8], kind: Kind) -> usize {
    let head = protocol::Head {
        kind: kind.number(),
        client: 1,
        server: 1,
        t: 1,
        call: 1,
    };
    wire::make::put_head(packet, 0, head)
}

// A store by client 1 to server 1 at t = 1, with the stamp of a number. Store tests no tag and no digest, so that these are zeros.
fn put_store(packet: &mut [u8], number: u32) {
    let a = put_kind(packet, Kind::Store);
    let stamp = protocol::Stamp::new(number, 1, [0; hmac::TAG]);
    let b = wire::make::put_stamp(packet, a, stamp);
    wire::make::put_number2(packet, b, cluster::TOP_LENGTH as u16);
}

// A blank server's memory: server 1 at t = 1.
fn blank_server() -> [u8; cluster::MEMORY] {
    let mut memory = [0; cluster::MEMORY];
    let _ = server::blank::blank(&mut memory, 1, 1);
    memory
}

// The server's reply to a packet, if it takes it.
fn reply(memory: &mut [u8], packet: &[u8]) -> Result<[u8; cluster::PACKET_ROOM], Refusal> {
    let mut out = [0; cluster::PACKET_ROOM];
    server::take::take(memory, &[1; cluster::KEY], packet, &mut out)?;
    Ok(out)
}

// The byte with which the server replies to a store.
fn answer(memory: &mut [u8], number: u32) -> Result<u8, Refusal> {
    let mut packet = [0; STORE];
    put_store(&mut packet, number);
    let out = reply(memory, &packet)?;
    Ok(wire::bytes::byte_at(&out, wire::sizes::HEAD))
}

// An answer as the cards tell it: for a refusal 100 and its number.
fn told(answer: Result<u8, Refusal>) -> u64 {
    match answer {
        Ok(byte) => u64::from(byte),
        Err(refusal) => 100 + u64::from(refusal.number()),
    }
}

// Stores of the stamps 1 to 32: how many the server keeps.
fn fill(memory: &mut [u8]) -> u64 {
    let mut kept = 0;
    for number in 1..=32 {
        if answer(memory, number) == Ok(Code::Kept.number()) {
            kept += 1;
        }
    }
    kept
}

// 32 stored: the next is answered 11, and a held stamp 10, be it the first or the last.
fn history(rt: &impl Print) -> io::Result<()> {
    let mut memory = blank_server();
    show(rt, "stored: ", fill(&mut memory), 32)?;
    show(rt, "store 33: ", told(answer(&mut memory, 33)), 11)?;
    show(rt, "store 1 again: ", told(answer(&mut memory, 1)), 10)?;
    show(rt, "store 32 again: ", told(answer(&mut memory, 32)), 10)
}

// The bytes of the fragment that a store hands out: half of the longest content.
fn handed(rt: &impl Print) -> io::Result<()> {
    let mut packet = [0; STORE];
    put_store(&mut packet, 1);
    let fragment = wire::packet::fragment(&packet);
    show(rt, "fragment in a store: ", fragment.len() as u64, 512)
}

// The server completes a write with a stamp of client 1, which it does without a test.
fn complete(memory: &mut [u8]) {
    let mut packet = [0; COMPLETE];
    let a = put_kind(&mut packet, Kind::Complete);
    let stamp = protocol::Stamp::new(1, 1, [0; hmac::TAG]);
    wire::make::put_stamp(&mut packet, a, stamp);
    let _ = reply(memory, &packet);
}

// 1 where the candidate that a server collects is blank, or 0.
fn collected(memory: &mut [u8]) -> u64 {
    let mut packet = [0; wire::sizes::HEAD];
    put_kind(&mut packet, Kind::Collect);
    let blank = reply(memory, &packet).is_ok_and(|out| wire::values::head_at(wire::bytes::rest(
        &out,
        wire::sizes::HEAD,
    )).is_blank());
    u64::from(blank)
}

// A blank server's candidate is blank, and a completed write's is not.
fn candidates(rt: &impl Print) -> io::Result<()> {
    let mut memory = blank_server();
    show(
        rt,
        "blank server's candidate blank: ",
        collected(&mut memory),
        1,
    )?;
    complete(&mut memory);
    show(rt, "completed candidate blank: ", collected(&mut memory), 0)
}

// A new client, a writer, begins a write of n bytes.
fn begun(n: usize) -> Result<u8, Refusal> {
    let content = [7; cluster::TOP_LENGTH];
    let mut kept = [0; wire::kept::KEPT];
    client::begin::begin_write_in(
        client::new_call(),
        &mut kept,
        client::Party { t: 1, client: 1 },
        wire::bytes::part(&content, 0, n),
        &[5; cluster::KEY],
    )?;
    Ok(0)
}

// A content of no bytes is accepted (document 02, W-202; document 01's card has 6), as are one of a byte and the longest.
fn lengths(rt: &impl Print) -> io::Result<()> {
    show(rt, "length 0: ", told(begun(0)), 0)?;
    show(rt, "length 1: ", told(begun(1)), 0)?;
    show(rt, "length 1024: ", told(begun(1024)), 0)
}

// Each card as a line.
pub(crate) fn run(rt: &impl Print) -> io::Result<()> {
    history(rt)?;
    lengths(rt)?;
    handed(rt)?;
    candidates(rt)
}
