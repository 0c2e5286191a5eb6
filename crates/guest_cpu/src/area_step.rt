//! The step of a processor's course in an area of the pool.
ghost use Rattle.std.specs.Prelude.{◌≡◌, ℕ, OnOk, OnErr};
ghost use Rattle.guest_steps.specs.Steps.{AreaRoomAlone};
ghost use Rattle.guest_steps.specs.declared.processor.Need.TheVariants as need;
ghost use Rattle.guest_cpu.specs.Accessing.{MayVisit, StepsArea};
ghost use Rattle.guest_cpu.specs.Progressing.{need_in};
ghost use Rattle.guest_cpu.specs.Stepping.{OnlyRoom};

use crate::areas::access;
use crate::progress::Progress;
use crate::steps::end_looks;
use event_core::Place;
use guest_steps::Need;
use io_areas::Area;
use std::alloc::{AllocError, Global};

impl Progress {
    /// Steps the area that the present command needs. `AllocError` is out of memory, and then nothing has changed but room.
    pub(crate) fn step_area(&mut self, alloc: Global, area: &mut Area) -> Result<(), AllocError>
        requires need { need_in self.old ≡ need.Area area.old.number }
        requires may { MayVisit self.old area.old }
        ensures steps { OnOk result (StepsArea self.old self.new area.old area.new) }
        ensures failed { OnErr result (OnlyRoom self.old self.new
            × AreaRoomAlone area.old area.new) }
    {
        let number = self.needed_area();
        self.made.reserve(1)?;
        let mut turn = self.made.turn(self.number);
        let command = self.script.get(self.made.replies());
        let step = access(alloc, &mut self.held, &mut turn, area, number, command)?;
        end_looks(&mut self.held, &step.reply);
        let at = Place::Area(number);
        self.made
            .add_at(turn, at, step.event, step.reply, step.bytes);
        Ok(())
    }

    /// The number of the area that the present command needs.
    fn needed_area(&self) -> u32
        requires { (area : ℕ) × (need_in self.now ≡ need.Area area) }
        ensures { need_in self.now ≡ need.Area result }
    {
        match self.next_need() {
            Need::Area(number) => number,
            _ => unreachable!(),
        }
    }
}
