//! A record of module calls, with room taken ahead.
ghost use Rattle.std.specs.Prelude.{◌≡◌, [], ◌∷◌, ◌++◌, ◌⊎◌, ◌+◌, ◌<◌, ◌≤◌, length, IfOk, OnOk};
ghost use Rattle.guest_base.specs.Levels.{level_pages};
ghost use Rattle.guest_base.specs.declared.memory.PageState.TheVariants.{Accepted};

use crate::span::Span;
use event_core::{CallKind, Calls, ModuleCall, PortAnswer};
use guest_base::{Items, Level, Page, PageState, Pages};
use std::alloc::{AllocError, Global};
use std::marker::Model;

/// Module calls in the order in which they were made, with room for more.
#[derive(Debug, Drop)]
pub struct CallLog {
    calls: Vec<ModuleCall>,
}

impl Model for CallLog {
    ghost use Rattle.std.specs.Prelude.{◌-◌, vec_len, vec_capacity};
    ghost use Rattle.page_module.specs.Logged.{Logged};

    ghost Value = { Logged };

    ghost view = { λ l. record {
      calls = l.calls.items;
      room = vec_capacity l.calls - vec_len l.calls;
    } };
}

impl CallLog {
    ghost use Rattle.page_module.specs.Spans.{BeginsPending};
    ghost use Rattle.page_module.specs.Logged.{calls_in, room_in};
    ghost use Rattle.page_module.specs.Modules.{accept_call, span_call, MakesCall};

    /// An empty log with no room.
    pub fn new(alloc: Global) -> CallLog
        ensures { result.calls ≡ [] }
    {
        CallLog {
            calls: Vec::new(alloc),
        }
    }

    /// An empty log with room for this many calls.
    pub fn with_room(alloc: Global, calls: u64) -> Result<CallLog, AllocError>
        ensures { IfOk result (λ log. (log.calls ≡ []) × (calls ≤ log.room)) }
    {
        Ok(CallLog {
            calls: Vec::with_capacity(alloc, calls as usize)?,
        })
    }

    /// Takes room for `calls` more calls. Nothing else changes.
    pub fn reserve(&mut self, calls: u64) -> Result<(), AllocError>
        ensures ok { OnOk result (calls ≤ self.new.room) }
        ensures room_kept { self.old.room ≤ self.new.room }
        ensures calls { self.new.calls ≡ self.old.calls }
    {
        self.calls.reserve(calls as usize)
    }

    /// The number of the next call, counted from 1.
    pub fn next_number(&self) -> u64
        ensures { result ≡ length self.now.calls + 1 }
    {
        self.calls.len() as u64 + 1
    }

    /// Adds a call, in the room that was taken.
    pub fn note(&mut self, call: ModuleCall)
        requires { 0 < self.old.room }
        ensures calls { self.new.calls ≡ self.old.calls ++ call ∷ [] }
        ensures room { self.old.room ≤ self.new.room + 1 }
    {
        self.calls.push_reserved(call);
    }

    /// Adds an accept call of `level` from a page on, in the room that was taken, and makes its pages Accepted where its answer is
    /// Ok.
    pub fn make_accept(&mut self, span: &mut Span, at: Page, level: Level, answer: PortAnswer)
        requires room { 0 < self.old.room }
        requires pending { BeginsPending span.old at.0 (level_pages level) }
        ensures { MakesCall calls_in room_in self.old self.new Accepted span.old span.new
            (accept_call at.0 level answer) }
    {
        let call = ModuleCall {
            kind: CallKind::Accept,
            first: at.0,
            count: level.pages(),
            level,
            answer,
        };
        self.make(span, call, PageState::Accepted);
    }

    /// Adds a call over all pages of a span, in the room that was taken, and gives these a state where its answer is
    /// Ok.
    pub fn make_for_all(
        &mut self,
        span: &mut Span,
        kind: CallKind,
        state: PageState,
        answer: PortAnswer,
    )
        requires { 0 < self.old.room }
        ensures { MakesCall calls_in room_in self.old self.new state span.old span.new
            (span_call kind span.old answer) }
    {
        let pages = span.pages();
        let call = ModuleCall {
            kind,
            first: pages.first,
            count: pages.count,
            level: Level::Small,
            answer,
        };
        self.make(span, call, state);
    }

    /// Adds a call over pages of a span, in the room that was taken, and gives these a state where its answer is Ok.
    fn make(&mut self, span: &mut Span, call: ModuleCall, state: PageState)
        requires room { 0 < self.old.room }
        requires pages { (record { first = call.first; count = call.count } ≡ span.old.ticket.pages)
            ⊎ ((state ≡ Accepted) × BeginsPending span.old call.first call.count) }
        ensures { MakesCall calls_in room_in self.old self.new state span.old span.new call }
    {
        if call.answer == PortAnswer::Ok {
            let pages = Pages {
                first: call.first,
                count: call.count,
            };
            span.mark(pages, state);
        }
        self.note(call);
    }

    /// The calls.
    pub fn into_calls(self) -> Calls
        ensures { result ≡ self.calls }
    {
        let CallLog { calls } = self;
        Items::from_vec(calls)
    }
}
