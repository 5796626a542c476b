// The plan of a lab, as a row of numbers.
ghost use Rattle.std.specs.Prelude.{◌≡◌};
ghost use Rattle.embed.specs.Packing.{answer, written_by};
ghost use Rattle.embed.specs.Plans.{planned_numbers, plan_export_refusal};

#[unsafe(no_mangle)]
pub extern "C" fn cendrulas_plan(
    t: usize,
    length: usize,
    readers: usize,
    stores: usize,
    numbers: &mut [usize],
) -> u64
    ensures value { result ≡ answer (plan_export_refusal t length readers stores numbers.old) (planned_numbers t length readers stores) }
    ensures numbers_after { numbers.new ≡ written_by (plan_export_refusal t length readers stores numbers.old)
        (planned_numbers t length readers stores) numbers.old }
{
    embed::plans::cendrulas_plan(t, length, readers, stores, numbers)
}
