// Fragments of a content, the content from fragments, and the weights with which they give it.
// `as` stands where a number has no `From`; the proof says that it fits.
#![tactic(auto)]

ghost use Rattle.std.specs.Prelude.{◌≡◌, ◌≤◌};
ghost use Rattle.cluster.specs.Config.{shelf};
ghost use Rattle.cluster.specs.Ranges.{top_faults, top_length};
ghost use Rattle.erasure.specs.Fragments.{fragment_size_def};
ghost use Rattle.cluster.specs.Refusals.{outcome_told};
ghost use Rattle.erasure.specs.Steps.{fragment_told, fragment_step, restore_step};
ghost use Rattle.erasure.specs.System.{width};
ghost use Rattle.erasure.specs.Weights.{weights_told, weights_step, weighed_step};

use cluster::Refusal;

mod choice;
mod direct;
mod given;
mod lanes;
mod points;
mod refusals;
mod runs;
mod system;
mod weighing;

// The most servers that restoring uses.
pub const WIDTH: usize = system::WIDTH;

// Room for a row of weights for each of as many plain runs.
pub const ROWS: usize = WIDTH * WIDTH;

// Room for the longest fragment.
pub const ROOM: usize = 512;

// A fragment and its length, padded with 00h.
#[derive(Clone, Copy)]
pub struct FragmentBytes {
    pub count: usize,
    pub bytes: [u8; ROOM],
}

// The servers that restoring uses, k of them, and k rows of k weights, padded with 00h.
#[derive(Clone, Copy)]
pub struct WeightRows {
    pub count: usize,
    pub servers: [u8; WIDTH],
    pub rows: [u8; ROWS],
}

// S: how many servers there are, and k below, by the t that is lent; cluster has both by a byte.
pub(crate) fn servers_of(t: usize) -> usize
    requires { t ≤ top_faults }
    ensures { result ≡ (shelf t).servers }
{
    cluster::servers(t as u8)
}

// k: how many fragments give a content back.
pub(crate) fn threshold_of(t: usize) -> usize
    requires { t ≤ top_faults }
    ensures { result ≡ (shelf t).threshold }
{
    cluster::threshold(t as u8)
}

// The length of each fragment of a content of n bytes.
pub(crate) fn size(k: usize, n: usize) -> usize
    requires { (1 ≤ k) × (k ≤ width) × (n ≤ top_length) }
    ensures { result ≡ fragment_size_def k n }
{
    n.div_ceil(k)
}

// ---- the operations

// The fragment of a server. The table is document 01's: `(shelf t).points`.
pub fn fragment(t: usize, server: usize, content: &[u8]) -> Result<FragmentBytes, Refusal>
    ensures { fragment_told result ≡ fragment_step t server content.now }
{
    refusals::fragment_refusal(t, server, content.len())?;
    let points = points::numbered();
    let s = servers_of(t);
    let k = threshold_of(t);
    let f = size(k, content.len());
    let bytes = runs::make(&points[..s], k, f, server, content);
    Ok(FragmentBytes { count: f, bytes })
}

// The content of `length` bytes that the fragments of the servers give, which stand one after the other, at the start of out.
// The table is document 01's: `(shelf t).points`.
pub fn restore(
    t: usize,
    length: usize,
    servers: &[usize],
    fragments: &[u8],
    out: &mut [u8],
) -> Result<usize, Refusal>
    ensures { (outcome_told result, out.new) ≡ restore_step t length servers.now fragments.now out.old }
{
    refusals::restore_refusal(t, length, servers, fragments.len(), out.len())?;
    let k = threshold_of(t);
    let c = choice::select(servers, k);
    if c.count < k {
        return Err(Refusal::Fragments);
    }
    let points = points::numbered();
    let s = servers_of(t);
    runs::rebuild(&points[..s], c, fragments, size(k, length), length, out);
    Ok(length)
}

// The servers that restoring uses of those named, and the weights of their fragments. The table is document 01's: `(shelf t).points`.
pub fn weights(t: usize, servers: &[usize]) -> Result<WeightRows, Refusal>
    ensures { weights_told result ≡ weights_step t servers.now }
{
    refusals::weights_refusal(t, servers)?;
    let k = threshold_of(t);
    let c = choice::select(servers, k);
    if c.count < k {
        return Err(Refusal::Fragments);
    }
    let points = points::numbered();
    let s = servers_of(t);
    Ok(WeightRows {
        count: k,
        servers: choice::used(c),
        rows: weighing::of_chosen(&points[..s], c),
    })
}

// The content of `length` bytes that the fragments of the servers used, which stand one after the other, give by the rows of their weights, at
// the start of out.
pub fn restore_weighed(
    t: usize,
    length: usize,
    rows: [u8; ROWS],
    fragments: &[u8],
    out: &mut [u8],
) -> Result<usize, Refusal>
    ensures { (outcome_told result, out.new) ≡ weighed_step t length rows fragments.now out.old }
{
    refusals::weighed_refusal(t, length, fragments.len(), out.len())?;
    let k = threshold_of(t);
    runs::rebuild_weighed(rows, k, fragments, size(k, length), length, out);
    Ok(length)
}
