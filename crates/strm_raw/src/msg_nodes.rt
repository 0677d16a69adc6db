//! Message blocks as nodes.
use crate::data_nodes::DataLink;
use std::marker::{Send, Sync};
use strm_types::MsgKind;

/// A message block: its own number, its kind and band, its data block, and of that the read place and the write place.
/// `next` is b_cont, or the next free one. Of the first block of a message on a list, `ahead` leads on to the next message
/// of the list, and `behind` back to the one before. It takes 80 bytes.
#[derive(Clone, Copy)]
pub(crate) struct MsgNode {
    pub(crate) kind: MsgKind,
    pub(crate) band: u8,
    pub(crate) name: u32,
    pub(crate) number: DataLink,
    pub(crate) start: usize,
    pub(crate) end: usize,
    pub(crate) next: Option<MsgLink>,
    pub(crate) ahead: Option<MsgLink>,
    pub(crate) behind: Option<MsgLink>,
}

const _: () = prove!(size_of::<MsgNode>() == 80);

/// Where a message block lies. It owns nothing.
#[derive(Clone, Copy)]
pub(crate) struct MsgLink {
    pub(crate) at: *mut MsgNode,
}

/// What a message block shows of which data block.
#[derive(Clone, Copy)]
pub(crate) struct Shows {
    pub(crate) kind: MsgKind,
    pub(crate) band: u8,
    pub(crate) number: DataLink,
    pub(crate) start: usize,
    pub(crate) end: usize,
}

// A link owns nothing: what lies there is reached through the owner of the nodes alone.
unsafe impl Send for MsgLink {}

unsafe impl Sync for MsgLink {}
