// Ticks of a hall that is played.
ghost use Rattle.std.specs.Prelude.{IfOk, IfSome, ◌<◌};
ghost use Rattle.text.specs.Failures.{UnlessMemory};
ghost use Rattle.session.specs.Ticks.{Turned, TicksOn};

use super::clock::{Clock, marks_at, older};
use super::state::Session;
use field::Refusal;
use std::alloc::Global;
use text::Failure;
use tick::tick;

impl Session {
    // The entry's tick, with these waits and marks.
    fn turn(&mut self, waits: &mut [u64], marks: &[u8]) -> Result<Option<usize>, Refusal>
        ensures turned { Turned self.old self.new waits.old waits.new marks.now result }
        ensures there { IfOk result (λ o. IfSome o (λ i. i < 16)) }
    {
        let field = Session::lent(&self.shown);
        let memory = self.memory.as_mut_slice();
        tick(
            field.across,
            field.down,
            field.walls,
            field.bays,
            memory,
            waits,
            marks,
        )
    }

    // A tick: each arrival that is due so many ticks after its step is made, and one step is granted, or none.
    // It answers whose.
    pub fn tick(
        &mut self,
        heap: Global,
        clock: &mut Clock,
        due: u64,
    ) -> Result<Option<usize>, Failure>
        ensures ticks { UnlessMemory result (TicksOn self.old self.new clock.old clock.new due) }
        ensures there { UnlessMemory result (λ r. IfOk r (λ o. IfSome o (λ i. i < 16))) }
    {
        let ages = older(heap, clock.ages.as_slice())?;
        let marks = marks_at(heap, due, ages.as_slice())?;
        clock.ages = ages;
        let whose = self.turn(clock.waits.as_mut_slice(), marks.as_slice())?;
        if let Some(shuttle) = whose {
            clock.stepped(shuttle as u64);
        }
        Ok(whose)
    }
}
