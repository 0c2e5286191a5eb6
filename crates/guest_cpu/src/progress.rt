//! How far a processor has come in its script.
ghost use Rattle.std.specs.Prelude.{◌≡◌, [], None, All, true, false};

use crate::made::MadeEntries;
use accept_sizes::RunEnd;
use dma_map::Layout;
use event_core::{Boot, Entries, Hosts, Script};
use guest_base::{CpuNo, Units};
use held_blocks::Holdings;
use page_module::{CallLog, Span};
use std::alloc::Global;
use std::collections::VecDeque;
use std::marker::Model;
use std::snapshot::Snapshot;

/// A run of units of a claim, with room for the calls that its acceptance makes.
#[derive(Drop)]
pub(crate) struct RunRoom {
    pub(crate) run: Units,
    /// Where the calls are noted.
    pub(crate) log: CallLog,
    /// Where they are copied, since the memory's entry has them too.
    pub(crate) copy: CallLog,
}

/// The run of an open claim whose pages are out.
#[derive(Drop)]
pub(crate) struct OpenRun {
    pub(crate) span: Span,
    pub(crate) room: RunRoom,
    /// How the acceptance of the pages ended; None before the work is done.
    pub(crate) end: Option<RunEnd>,
}

/// How far a processor has come in its script.
#[derive(Drop)]
pub(crate) struct Progress {
    pub(crate) boot: Snapshot<Boot>,
    pub(crate) number: CpuNo,
    pub(crate) hosts: Hosts,
    pub(crate) script: Script,
    pub(crate) made: MadeEntries,
    /// The blocks and the mappings that it holds, by its entries so far.
    pub(crate) held: Holdings,
    /// The run that is out, with a claim open.
    pub(crate) open_run: Option<OpenRun>,
    /// The runs behind it.
    pub(crate) later: VecDeque<RunRoom>,
}

impl Model for Progress {
    ghost use Rattle.guest_cpu.specs.Kept.{Keeps, done_of, out_of, runs_of};
    ghost use Rattle.guest_cpu.specs.Progressing.{Progressed};

    ghost Value = { Progressed };

    ghost view = { λ p. record {
      boot = p.boot.value;
      number = p.number.0;
      script = p.script;
      moved = p.made.moved;
      out = out_of p.open_run;
      done = done_of p.open_run;
      runs = runs_of p.open_run p.later.items;
      room = p.made.room;
    } };

    ghost invariant = { λ p.
        Keeps p.boot.value p.hosts p.script p.made p.held p.open_run p.later.items };
}

impl Progress {
    ghost use Rattle.block_laws.specs.Unconverting.{ConvertsNothing};
    ghost use Rattle.event_core.specs.Moved.{entries_of};
    ghost use Rattle.event_core.specs.ReadableScript.{ReadableScript};
    ghost use Rattle.dma_map.specs.Pools.{IsLayout, layout_in};
    ghost use Rattle.std.specs.Option.{ForSome};
    ghost use Rattle.guest_cpu.specs.Progressing.{first_progress};

    /// The progress of a processor that has made no entry.
    pub(crate) fn new(
        alloc: Global,
        boot: &Boot,
        hosts: Hosts,
        number: CpuNo,
        script: Script,
    ) -> Progress
        requires hosts { hosts ≡ boot.now.hosts }
        requires pool { ForSome (layout_in boot.now) IsLayout }
        requires unconverting { All ConvertsNothing script }
        requires readable { ReadableScript script }
        ensures { result ≡ first_progress boot.now number.0 script result.room }
    {
        Progress {
            boot: Snapshot::of(boot),
            number,
            hosts,
            script,
            made: MadeEntries::new(alloc),
            held: Holdings::new(alloc, Layout::of_boot(boot)),
            open_run: None,
            later: VecDeque::new(alloc),
        }
    }

    /// The script and the entries.
    pub(crate) fn into_parts(self) -> (Script, Entries)
        ensures script { result.0 ≡ self.script }
        ensures entries { result.1 ≡ entries_of self.moved }
    {
        let Progress {
            boot: _,
            number: _,
            hosts: _,
            script,
            made,
            held: _,
            open_run: _,
            later: _,
        } = self;
        (script, made.into_entries())
    }
}
