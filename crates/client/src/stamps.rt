// Stamps and tags: what a clock reply is checked against, and what a write makes at the end of clock.
ghost use Rattle.std.specs.Prelude.{◌≡◌, ◌++◌, ◌≤◌, ◌*◌, length};
ghost use Rattle.cluster.specs.Config.{shelf};
ghost use Rattle.cluster.specs.Ranges.{top_faults};
ghost use Rattle.hmac.specs.Hmac.{tag_of, tag_size};
ghost use Rattle.protocol.specs.Values.{stamp_size};
ghost use Rattle.protocol.specs.Primitives.{real, stamp_message_def};
ghost use Rattle.protocol.specs.Client.{higher};
ghost use Rattle.protocol.specs.View.{stamp_at_def};
ghost use Rattle.format.specs.Reading.{put};
ghost use Rattle.client.specs.Steps.{tag_run};

use crate::{kept, refusals};

// Line 100: the higher of a number and a stamp's, if its tag checks. The tag is made only for a higher number.
pub(crate) fn higher(writers: &[u8; cluster::KEY], high: u32, number: u32, body: &[u8]) -> u32
    requires { (stamp_size ≤ length body.now) × (number ≡ (stamp_at_def body.now).number) }
    ensures { result ≡ higher real writers.now high (stamp_at_def body.now) }
{
    if number <= high {
        return high;
    }
    let tag = hmac::tag(*writers, wire::bytes::part(body, 0, wire::sizes::LABEL));
    if wire::bytes::same_throughout(wire::bytes::part(body, wire::sizes::LABEL, hmac::TAG), &tag) {
        return number;
    }
    high
}

// What the writers' key tags: number and writer.
fn stamp_message(number: u32, writer: u8) -> [u8; wire::sizes::LABEL]
    ensures { result ≡ stamp_message_def number writer }
{
    let mut message = [0u8; wire::sizes::LABEL];
    let n = wire::make::put_number4(&mut message, 0, number);
    wire::make::put_byte(&mut message, n, writer);
    message
}

// Line 96: a stamp's bytes.
pub(crate) fn stamp_bytes(
    writers: &[u8; cluster::KEY],
    number: u32,
    writer: u8,
) -> [u8; wire::sizes::STAMP]
    ensures { result ≡ stamp_message_def number writer ++ tag_of writers.now (stamp_message_def number writer) }
{
    let message = stamp_message(number, writer);
    let tag = hmac::tag(*writers, &message);
    let mut bytes = [0u8; wire::sizes::STAMP];
    kept::write_at(&mut bytes, 0, &message);
    kept::write_at(&mut bytes, wire::sizes::LABEL, &tag);
    bytes
}

// Line 88: the tag of each server.
pub(crate) fn put_tags(
    tags: &mut [u8],
    t: usize,
    keys: &[[u8; cluster::KEY]; cluster::MOST_SERVERS],
    stamp: &[u8],
    digest: [u8; cluster::KEY],
)
    requires { (t ≤ top_faults) × (tag_size * (shelf t).servers ≤ length tags.old) }
    ensures { tags.new ≡ put tags.old 0 (tag_run keys.now stamp.now digest (shelf t).servers) }
{
    for i in 0..refusals::servers(t) {
        let tag = hmac::tag_with(keys[i], stamp, digest);
        kept::write_at(tags, hmac::TAG * i, &tag);
    }
}
