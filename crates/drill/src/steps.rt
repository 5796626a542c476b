// One line's step in the work area.
// `as` stands where a number has no `From`; the proof says that it fits.
ghost use Rattle.std.specs.Prelude.{◌≡◌, true, [], ◌≤◌, ◌<◌, length};
ghost use Rattle.cluster.specs.Ranges.{top_number, top_faults};
ghost use Rattle.cluster.specs.Refusals.{number_told};
ghost use Rattle.protocol.specs.Answers.{aborted_told};
ghost use Rattle.protocol.specs.Primitives.{real};
ghost use Rattle.runs.specs.Runs.{do_bytes, read, give-up, result_of, result_by};
ghost use Rattle.drill.specs.Sheet.{is_step_def};
ghost use Rattle.drill.specs.Listing.{work_size};
ghost use Rattle.drill.specs.Steps.{drill_shelf, nonce_for_def, write_line, step_of, shown};
ghost use Rattle.drill.specs.Moves.{DoneIn, StepsIn, RoundIn};

use crate::sheet::Line;
use crate::shown::Shown;
use crate::verbs::Verb;
use crate::{area, shown};
use cluster::Refusal;

// Where a nonce has its last four bytes, which hold the number.
const NUMBER_PLACE: usize = cluster::KEY - wire::sizes::NUMBER;

// k as a 32-byte number.
fn nonce_for(k: u32) -> [u8; cluster::KEY]
    ensures { result ≡ nonce_for_def k }
{
    let mut nonce = [0; cluster::KEY];
    wire::make::put_number4(&mut nonce, NUMBER_PLACE, k);
    nonce
}

// A write of length copies of a byte; it uses a nonce only if it begins.
fn write(
    work: &mut [u8],
    t: usize,
    begun: &mut u32,
    client: usize,
    size: usize,
    fill: u8,
) -> Result<(), Refusal>
    requires { (((1 ≤ t) × (t ≤ top_faults)) × (length work.old ≡ work_size)) × (begun.old < top_number) }
    ensures { StepsIn t (λ m. write_line (drill_shelf t) m begun.old client size fill) work.old work.new
        (shown (result_of (number_told result))) begun.new }
{
    if cluster::outside(1, cluster::TOP_WRITER, client) {
        return Err(Refusal::Client);
    }
    if cluster::TOP_LENGTH < size {
        return Err(Refusal::Length);
    }
    let content = [fill; cluster::TOP_LENGTH];
    let nonce = nonce_for(*begun + 1);
    area::begin_write(work, t, client, &content[..size], &nonce)?;
    *begun += 1;
    Ok(())
}

fn read(work: &mut [u8], t: usize, client: usize) -> Result<(), Refusal>
    requires { ((1 ≤ t) × (t ≤ top_faults)) × (length work.old ≡ work_size) }
    ensures { DoneIn t (λ m. do_bytes real (drill_shelf t) m (read client)) work.old work.new
        (shown (result_of (number_told result))) }
{
    if cluster::outside(1, cluster::TOP_CLIENT, client) {
        return Err(Refusal::Client);
    }
    area::begin_read(work, t, client)
}

fn stop(work: &mut [u8], t: usize, client: usize) -> Result<protocol::Aborted, Refusal>
    requires { ((1 ≤ t) × (t ≤ top_faults)) × (length work.old ≡ work_size) }
    ensures { DoneIn t (λ m. do_bytes real (drill_shelf t) m (give-up client)) work.old work.new
        (shown (result_by (aborted_told result) [])) }
{
    if cluster::outside(1, cluster::TOP_CLIENT, client) {
        return Err(Refusal::Client);
    }
    area::give_up(work, t, client)
}

// The line's step, by its verb: what it shows. It counts a write that begins.
pub(crate) fn step(work: &mut [u8], t: usize, begun: &mut u32, l: Line) -> Shown
    requires { ((((1 ≤ t) × (t ≤ top_faults)) × (length work.old ≡ work_size)) × (begun.old < top_number)) × (is_step_def l ≡ true) }
    ensures { StepsIn t (λ m. step_of (drill_shelf t) m begun.old l) work.old work.new result begun.new }
{
    let client = l.client as usize;
    let server = l.server as usize;
    match Verb::of(l.verb).unwrap() {
        Verb::Write => shown::begun(write(work, t, begun, client, l.length as usize, l.fill as u8)),
        Verb::Read => shown::begun(read(work, t, client)),
        Verb::Visit => crate::visits::visit_line(work, t, client, server),
        Verb::Unlatest => shown::begun(crate::servers::blank_line(work, t, server)),
        Verb::Stop => shown::given_up(stop(work, t, client)),
        Verb::Shelf => unreachable!(),
    }
}

// The client's round, 0 where no client from 1 to 16 is named.
pub(crate) fn round_of(work: &[u8], client: usize) -> u32
    ensures { RoundIn work.now client result }
{
    if cluster::outside(1, cluster::TOP_CLIENT, client) {
        return 0;
    }
    u32::from(area::call_of(work, client).tally.round)
}
