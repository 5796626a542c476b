// The drill.
ghost use Rattle.std.specs.Prelude.{◌≡◌};
ghost use Rattle.drill.specs.Listing.{drill_of};
ghost use Rattle.embed.specs.Drills.{packed_drill};

#[unsafe(no_mangle)]
pub extern "C" fn cendrulas_drill(sheet: &[u8], out: &mut [u8], work: &mut [u8]) -> u64
    ensures { record { answer = result; output = out.new; work = work.new }
        ≡ packed_drill (drill_of sheet.now out.old work.old) }
{
    embed::drills::cendrulas_drill(sheet, out, work)
}
