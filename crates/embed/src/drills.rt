// The drill.
// `as` stands where a number has no `From`; the proof says that it fits.
ghost use Rattle.std.specs.Prelude.{◌≡◌};
ghost use Rattle.drill.specs.Listing.{drill_of};
ghost use Rattle.embed.specs.Drills.{packed_drill};

use super::pack::pack;

#[tactic(auto, using(crate::proofs::Laws::at_refusal), unfolding(crate::specs::Drills::packed_drill))]
pub fn cendrulas_drill(sheet: &[u8], out: &mut [u8], work: &mut [u8]) -> u64
    ensures { record { answer = result; output = out.new; work = work.new }
        ≡ packed_drill (drill_of sheet.now out.old work.old) }
{
    match drill::drill(sheet, out, work) {
        Ok(count) => count as u64,
        Err(why) => pack(Err(why)),
    }
}
