//! The image of a pair: its plain state, and what has gone by each rule, as bytes. `specs/` says which states have an image, and
//! which one; the readers here say what stands in bytes, without taking memory, and the writers put it into a sink.
#![tactic(auto)]

mod accounts;
mod bands;
mod codes;
mod enabled;
mod fields;
mod flows;
mod image;
pub mod image_laws;
pub mod laws;
mod lengths;
mod loads;
mod messages;
mod modules;
mod passed;
mod queues;
mod sink;
mod streams;
mod trace;
mod versions;
pub mod writing;

pub use accounts::AccountText;
pub use bands::{band_behind, few_flows_at};
pub use enabled::NAMES;
pub use flows::Flow;
pub use image::{ImageText, StateText, read};
pub use lengths::{
    IMAGE_BLOCK, IMAGE_FIXED, MESSAGE_FIXED, MODULE_FIXED, QUEUE_FIXED, STREAM_FIXED,
};
pub use messages::{MessageText, message_behind};
pub use modules::{KindText, LdtermText, ModuleText, OwnText, PtemText, QueuesText};
pub use passed::{FlowsText, MessagesText};
pub use queues::QueueText;
pub use sink::Sink;
pub use streams::{HeadBits, StreamText};
pub use trace::Trace;
pub use versions::{FIRST_BANDS, Load, NameKind, PlaceKind, QueueKind, SlotKind, Version};
