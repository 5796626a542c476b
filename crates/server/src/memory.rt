// Reading a server's memory: the whole check of refusal 2, and the search of the history.
// `as` stands where a number has no `From`; the proof says that it fits.
ghost use Rattle.std.specs.Prelude.{◌≡◌, ◌&&◌, ◌≤◌, ltb, length, drop};
ghost use Rattle.cluster.specs.Config.{shelf};
ghost use Rattle.cluster.specs.Ranges.{memory_size};
ghost use Rattle.protocol.specs.Values.{rank, same_list, stamp_size};
ghost use Rattle.protocol.specs.View.{stamp_at_def};
ghost use Rattle.protocol.specs.Memory.{writes_place_def};
ghost use Rattle.format.specs.Reading.{bytes_at};
ghost use Rattle.server.specs.Reads.{SearchAs, FindAs, RepeatsAs, WritesAs, MemoryAs, raised_top};

use wire::bytes::{part, rest};
use wire::fields::{Cursor, byte_field};
use wire::values::rank_at;

// The places of t, of the server's number, of the count of stored writes, and of the latest candidate.
pub const FAULTS: usize = 0;

pub const SERVER: usize = 1;

pub const COUNT: usize = 2;

pub const LATEST: usize = 3;

// The highest of the stored writes: its stamp in their order, and its place.
#[derive(Clone, Copy)]
pub(crate) struct Top {
    pub key: u64,
    pub at: usize,
}

// What a server's memory tells: t, the server's number, how many writes are stored, the place past them, and the highest of them, if one is stored.
#[derive(Clone, Copy)]
pub(crate) struct Opened {
    pub t: u8,
    pub server: u8,
    pub count: usize,
    pub end: usize,
    pub top: Option<Top>,
}

// The place of the stored writes.
pub fn writes_place(t: u8) -> usize
    ensures { result ≡ writes_place_def (shelf t) }
{
    LATEST + wire::sizes::candidate_size(t)
}

// The first of n stored writes whose stamp has these bytes. The writes were checked before, so each ends where its record length says:
// it has the bytes of one without a fragment, and its fragment's.
fn search(memory: &[u8], t: u8, n: usize, stamp: &[u8]) -> Option<usize>
    ensures { SearchAs (shelf t) n memory.now stamp.now result }
{
    let frame = wire::sizes::STAMP + wire::sizes::share_size(t, 0);
    let mut at = writes_place(t);
    for _ in 0..n {
        let write = rest(memory, at);
        if wire::bytes::same(part(write, 0, wire::sizes::STAMP), stamp) {
            return Some(at);
        }
        let length = wire::bytes::number2(rest(write, wire::sizes::STAMP));
        let size = frame + wire::sizes::fragment_size(t, length);
        if write.len() < size {
            return None;
        }
        at += size;
    }
    None
}

// Whether a stamp's bytes stand at a place.
fn stands_at(memory: &[u8], at: usize, stamp: &[u8]) -> bool
    ensures { result ≡ same_list (bytes_at (drop at memory.now) 0 stamp_size) stamp.now }
{
    wire::bytes::same(part(rest(memory, at), 0, wire::sizes::STAMP), stamp)
}

// The first stored write whose stamp has the bytes that some begin with; key is that stamp's rank. A stamp above the highest of them needs no search,
// nor does that one's own, which is asked for most often.
fn find_ranked(memory: &[u8], opened: Opened, key: u64, bytes: &[u8]) -> Option<usize>
    requires { key ≡ rank (stamp_at_def bytes.now) }
    ensures { FindAs memory.now opened bytes.now result }
{
    let stamp = part(bytes, 0, wire::sizes::STAMP);
    let top = opened.top?;
    if top.key < key {
        return None;
    }
    if stands_at(memory, top.at, stamp) {
        return Some(top.at);
    }
    search(memory, opened.t, opened.count, stamp)
}

pub(crate) fn find(memory: &[u8], opened: Opened, bytes: &[u8]) -> Option<usize>
    ensures { FindAs memory.now opened bytes.now result }
{
    find_ranked(memory, opened, rank_at(bytes), bytes)
}

// The higher of top, if there is one, and the write of a key at a place.
fn raised(top: Option<Top>, key: u64, at: usize) -> Top
    ensures { result ≡ raised_top top key at }
{
    match top {
        Some(top) if key <= top.key => top,
        _ => Top { key, at },
    }
}

// Whether one of the stored writes that were read has the stamp at the place past them, whose rank is key. Writes mostly arrive in the order of
// their stamps, so the first test of find_ranked is made here too: without a call.
fn repeats(memory: &[u8], read: Opened, key: u64) -> bool
    requires { key ≡ rank (stamp_at_def (drop read.end memory.now)) }
    ensures { RepeatsAs memory.now read result }
{
    let Some(top) = read.top else {
        return false;
    };
    key <= top.key && find_ranked(memory, read, key, rest(memory, read.end)).is_some()
}

// n stored writes, no two of one stamp, from their place on, after the t and the server that were read: the place past them, and the highest of them,
// if there is one.
fn check_writes(
    memory: &[u8],
    t: u8,
    server: u8,
    n: usize,
    place: usize,
) -> Option<(usize, Option<Top>)>
    requires { (place ≡ writes_place_def (shelf t)) × (place ≤ length memory.now) }
    ensures { WritesAs t server n memory.now result }
{
    let mut at = place;
    let mut top = None;
    for i in 0..n {
        let (label, _, share) = wire::parts::stamp_field(memory, Cursor { at })?;
        let (_, next) = wire::parts::share_field(memory, share, t)?;
        let key = protocol::Stamp::rank_of(label.number, label.writer);
        let read = Opened {
            t,
            server,
            count: i,
            end: at,
            top,
        };
        if repeats(memory, read, key) {
            return None;
        }
        top = Some(raised(top, key, at));
        at = next.at;
    }
    Some((at, top))
}

// What the whole memory tells; none is refusal 2. All bytes after the last write are joined.
pub(crate) fn open(memory: &[u8]) -> Option<Opened>
    requires { length memory.now ≡ memory_size }
    ensures { MemoryAs memory.now result }
{
    let start = Cursor { at: FAULTS };
    let (faults, past_t) = byte_field(memory, start, 1, cluster::TOP_FAULTS as u32)?;
    let t = faults as u8;
    let servers = cluster::servers(t);
    let (number, past_server) = byte_field(memory, past_t, 1, servers as u32)?;
    let (n, past_count) = byte_field(memory, past_server, 0, cluster::CAPACITY as u32)?;
    let (_, _, past_latest) = wire::parts::any_candidate_field(memory, past_count, t)?;
    let server = number as u8;
    let count = n as usize;
    let (end, top) = check_writes(memory, t, server, count, past_latest.at)?;
    let opened = Opened {
        t,
        server,
        count,
        end,
        top,
    };
    wire::bytes::all_zero(rest(memory, end)).then_some(opened)
}
