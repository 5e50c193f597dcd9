//! The identities and values that the parts of a streaming cluster exchange: names, streams, grains,
//! subscriptions, rules, sequence tokens, payloads, batches and events, and short rows of them.
//!
//! Each is a small value. A name, an id, a rule, a token, a payload and an event are `Copy`, and a row has
//! its places in itself: none of them takes memory.
#![tactic(auto)]

mod event;
mod ident;
mod limits;
mod payload;
mod row;
mod rule;
mod text;
mod token;

pub use event::Event;
pub use ident::{BadName, GrainId, Name, StreamId, SubName, WrongByte};
pub use limits::{
    BATCH_EVENTS, BLOCK_EVENTS, MAILBOX_PLACES, MOST_BLOCKS, MOST_ENTRIES, MOST_EVENTS,
    MOST_PERMITS, MOST_QUEUES, MOST_RISES, MOST_RULES, MOST_SILOS, MOST_SUBS, NAME_BYTES,
    PAYLOAD_BYTES, PULL_EVENTS, TURN_EVENTS,
};
pub use payload::{BadPayload, Batch, Payload};
pub use row::Row;
pub use rule::Rule;
pub use text::{parse_number, split_once};
pub use token::{BadToken, Token};
