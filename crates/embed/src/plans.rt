// The plan of a lab, as a row of numbers.
// `as` stands where a number has no `From`; the proof says that it fits.
ghost use Rattle.std.specs.Prelude.{◌≡◌, ◌+◌, ◌≤◌, length};
ghost use Rattle.format.specs.Reading.{over, Wrote};
ghost use Rattle.planner.specs.Plan.{made_plan};
ghost use Rattle.embed.specs.Packing.{answer, written_by, packed_told};
ghost use Rattle.embed.specs.Plans.{plan_room, numbers_of_def, planned_numbers, plan_export_refusal};

use super::pack::{Told, counted, need, pack};
use cluster::Refusal;

// How many numbers a plan has.
const NUMBERS: usize = planner::KINDS + planner::FILTERS + planner::HELD + planner::PACKETS + 1;

// Writes src at a place of dst, where there is room for it, and gives the place past it.
fn put_at(dst: &mut [usize], at: usize, src: &[usize]) -> usize
    requires { at + length src.now ≤ length dst.old }
    ensures { Wrote dst.old at src.now dst.new result }
{
    let past = at + src.len();
    dst[at..past].copy_from_slice(src);
    past
}

// Writes the parts of a plan one after the other.
fn put_plan(plan: planner::LabPlan, numbers: &mut [usize])
    requires { plan_room ≤ length numbers.old }
    ensures { numbers.new ≡ over (numbers_of_def (made_plan plan)) numbers.old }
{
    let past_kinds = put_at(numbers, 0, &plan.kinds);
    let past_filters = put_at(numbers, past_kinds, &plan.filters);
    let past_held = put_at(numbers, past_filters, &plan.held);
    let past_packets = put_at(numbers, past_held, &plan.packets);
    let _ = put_at(numbers, past_packets, &[plan.memory]);
}

#[tactic(auto, using(crate::proofs::Laws::at_refusal, crate::proofs::Planned::counts), unfolding(crate::specs::Plans::plan_export_refusal, crate::specs::Plans::planned_numbers))]
fn plan(
    t: usize,
    length: usize,
    readers: usize,
    stores: usize,
    numbers: &mut [usize],
) -> Result<Told, Refusal>
    ensures value { packed_told result ≡ answer (plan_export_refusal t length readers stores numbers.old)
        (planned_numbers t length readers stores) }
    ensures numbers_after { numbers.new ≡ written_by (plan_export_refusal t length readers stores numbers.old)
        (planned_numbers t length readers stores) numbers.old }
{
    need(numbers.len() >= NUMBERS)?;
    put_plan(planner::plan(t, length, readers, stores)?, numbers);
    Ok(counted(NUMBERS as u16))
}

pub fn cendrulas_plan(
    t: usize,
    length: usize,
    readers: usize,
    stores: usize,
    numbers: &mut [usize],
) -> u64
    ensures value { result ≡ answer (plan_export_refusal t length readers stores numbers.old) (planned_numbers t length readers stores) }
    ensures numbers_after { numbers.new ≡ written_by (plan_export_refusal t length readers stores numbers.old)
        (planned_numbers t length readers stores) numbers.old }
{
    pack(plan(t, length, readers, stores, numbers))
}
