// How an outstation begins: the recorder's set-up, with a phase kind, no table loaded and its room cleared.
ghost use Rattle.std.specs.Prelude.{◌≡◌};
ghost use Rattle.store.specs.Store.{store};
ghost use Rattle.outstation.specs.Outstation.{done};
ghost use Rattle.outstation.specs.SetUp.{set_up_site, begun_as};

use crate::{Outstation, Phase};
use answers::Refusal;
use recorder::{Recorder, SetUp};

impl Outstation {
    fn begun(
        given: SetUp,
        phase: Phase,
        values: &mut [u16],
        starts: &mut [u32],
        marks: &mut [u64],
        table: &mut [u8],
    ) -> Result<Outstation, Refusal>
        ensures { begun_as result values.new starts.new marks.new table.new
            ≡ set_up_site given phase (store values.old starts.old marks.old) table.old }
    {
        given.answer(values.len(), starts.len(), marks.len())?;
        if table.len() != tariff::TABLE {
            return Err(Refusal::Length);
        }
        let (recorder, answer) = Recorder::set_up(given, values, starts, marks);
        answer?;
        table.fill(0);
        Ok(Outstation {
            recorder,
            loaded: false,
            phase,
        })
    }

    // An outstation set up, beside the answer: no table is loaded, and its room is cleared. A refusal hands back the blank outstation and leaves store and room as they were.
    pub fn set_up(
        given: SetUp,
        phase: Phase,
        values: &mut [u16],
        starts: &mut [u32],
        marks: &mut [u64],
        table: &mut [u8],
    ) -> (Outstation, Result<(), Refusal>)
        ensures { done result.1 result.0 values.new starts.new marks.new table.new
            ≡ set_up_site given phase (store values.old starts.old marks.old) table.old }
    {
        match Outstation::begun(given, phase, values, starts, marks, table) {
            Ok(outstation) => (outstation, Ok(())),
            Err(refusal) => (Outstation::blank(), Err(refusal)),
        }
    }
}
