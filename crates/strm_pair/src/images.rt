//! The image of a pair: its text, from the store and what stands beside it; and the second pass over a text, which stands in a store what the
//! first one found.

pub(crate) mod heads;
pub(crate) mod known;
pub(crate) mod made_kinds;
pub(crate) mod made_messages;
pub(crate) mod made_modules;
pub(crate) mod made_pairs;
pub(crate) mod made_queues;
pub(crate) mod made_stacks;
pub(crate) mod made_streams;
pub(crate) mod modules;
pub(crate) mod queues;
pub(crate) mod streams;
pub(crate) mod texts;
pub(crate) mod whole;
pub(crate) mod widths;
