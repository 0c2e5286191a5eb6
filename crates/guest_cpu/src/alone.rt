//! Commands that end by the processor alone.
ghost use Rattle.std.specs.Prelude.{◌≡◌, ◌^◌, ◌≤◌, ◌<◌, None, Some, ℕ, OnOk, OnErr};
ghost use Rattle.block_laws.specs.Unconverting.{ConvertsNothing};
ghost use Rattle.event_core.specs.declared.boot.Boot.{Boot};
ghost use Rattle.event_core.specs.declared.reply.Reply.{Reply as ReplyValue};
ghost use Rattle.event_core.specs.Legal.{greatest_stamp};
ghost use Rattle.event_core.specs.Own.{replied};
ghost use Rattle.event_core.specs.Refusals.{refusal_of};
ghost use Rattle.guest_steps.specs.Seen.{need_for, need_unrefused};
ghost use Rattle.guest_steps.specs.declared.processor.Need.TheVariants as need;
ghost use Rattle.dma_map.specs.Pools.{HasPool};
ghost use Rattle.held_blocks.specs.Holdings.{own_in as own_held};
ghost use Rattle.guest_cpu.specs.Alone.{EndsAlone, alone_reply, own_behind, own_written, reply_alone};
ghost use Rattle.guest_cpu.specs.Progressing.{need_in};
ghost use Rattle.guest_cpu.specs.Stepping.{OnlyRoom};

use crate::progress::Progress;
use event_core::{Command, Event, NoRoom, Place, Reply};
use held_blocks::Holdings;
use std::alloc::{AllocError, Global};

/// The reply of a command that isn't refused: bytes of the processor's blocks, that they are written, or that no copy was asked
/// for. After `AllocError`, which is out of memory, the blocks and their bytes are as before.
fn told(alloc: Global, held: &mut Holdings, command: &Command) -> Result<Reply, AllocError>
    requires unconverting { ConvertsNothing command.now }
    requires alone { (boot : Boot) × (cpu : ℕ) × HasPool boot held.old.layout
        × (refusal_of boot (own_held held.old) command.now ≡ None)
        × (need_unrefused boot cpu (own_held held.old) command.now ≡ need.Own) }
    ensures reply { (reply : ReplyValue) → result ≡ Ok reply
        → reply_alone (own_held held.old) command.now ≡ Some reply }
    ensures held { (reply : ReplyValue) → result ≡ Ok reply
        → own_held held.new ≡ own_written command.now (Some reply) (own_held held.old) }
    ensures layout { held.new.layout ≡ held.old.layout }
    ensures err { OnErr result (own_held held.new ≡ own_held held.old) }
{
    match command {
        Command::Read { name, off, len } => Ok(Reply::Hex(held.read(alloc, name, *off, *len)?)),
        Command::Write { name, off, hex } => {
            held.write(alloc, name, *off, hex.as_slice())?;
            Ok(Reply::Done)
        }
        Command::Fill {
            name,
            off,
            len,
            byte,
        } => {
            held.fill(name, *off, *len, *byte)?;
            Ok(Reply::Done)
        }
        Command::Load { name, off } => Ok(Reply::Loaded(held.load(alloc, name, *off)?, None)),
        Command::SyncDev { .. } | Command::SyncCpu { .. } => Ok(Reply::Done),
        _ => unreachable!(),
    }
}

/// The reply of a command that ends by the processor alone. After `AllocError`, which is out of memory, the blocks and their
/// bytes are as before.
fn answer(alloc: Global, held: &mut Holdings, command: &Command) -> Result<Reply, AllocError>
    requires unconverting { ConvertsNothing command.now }
    requires need { (boot : Boot) × (cpu : ℕ) × HasPool boot held.old.layout
        × (need_for boot cpu (own_held held.old) (Some command.now) ≡ need.Own) }
    ensures reply { (boot : Boot) (reply : ReplyValue) → HasPool boot held.old.layout
        → result ≡ Ok reply
        → alone_reply boot (own_held held.old) command.now ≡ Some reply }
    ensures held { (reply : ReplyValue) → result ≡ Ok reply
        → own_held held.new ≡ own_behind command.now (Some reply) (own_held held.old) }
    ensures layout { held.new.layout ≡ held.old.layout }
    ensures err { OnErr result (own_held held.new ≡ own_held held.old) }
{
    let reply = match held.refusal(command) {
        Some(refusal) => refusal,
        None => told(alloc, held, command)?,
    };
    held.ended();
    Ok(reply)
}

impl Progress {
    /// Ends the present command by the processor alone. After an error nothing has changed but the room for entries.
    /// `NoRoom::Worn` comes exactly where the greatest stamp is 2^64 or more, and names it.
    pub(crate) fn step_alone(&mut self, alloc: Global) -> Result<(), NoRoom>
        requires need { need_in self.old ≡ need.Own }
        requires few { replied self.old.moved < 2 ^ 32 }
        ensures ends { OnOk result (EndsAlone self.old self.new) }
        ensures failed { OnErr result (OnlyRoom self.old self.new) }
        ensures worn { (stamp : ℕ) → result ≡ Err (NoRoom.Worn stamp)
            → (2 ^ 64 ≤ stamp) × (stamp ≡ greatest_stamp self.old.moved) }
        ensures worn_first { 2 ^ 64 ≤ greatest_stamp self.old.moved
            → result ≡ Err (NoRoom.Worn (greatest_stamp self.old.moved)) }
    {
        let clock = self.made.clock();
        if clock >= 1 << 64 {
            return Err(NoRoom::Worn(clock));
        }
        if self.made.reserve(1).is_err() {
            return Err(NoRoom::NoMemory);
        }
        let command = self.script.get(self.made.replies());
        let reply = match answer(alloc, &mut self.held, command) {
            Ok(reply) => reply,
            Err(AllocError) => return Err(NoRoom::NoMemory),
        };
        let mut turn = self.made.turn(self.number);
        turn.clock += 1;
        self.made
            .add_bare(turn, Place::Own, Event::Own, Some(reply));
        Ok(())
    }
}
