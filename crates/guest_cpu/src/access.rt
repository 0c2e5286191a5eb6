//! What a step of an area makes.
use event_core::{Event, Reply};
use guest_base::Bytes;

/// What a step of an area made: its event, the reply where the command ended with it, and the bytes that it moved.
#[derive(Debug, Drop)]
pub(crate) struct Access {
    pub(crate) event: Event,
    pub(crate) reply: Option<Reply>,
    pub(crate) bytes: Bytes,
}
