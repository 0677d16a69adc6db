//! Data blocks as nodes.
use std::marker::{Send, Sync};

/// A data block: the next free one, how many message blocks name it (db_ref), and its bytes. It takes 280
/// bytes.
#[derive(Clone, Copy)]
pub(crate) struct DataNode {
    pub(crate) next: Option<DataLink>,
    pub(crate) references: u8,
    pub(crate) bytes: [u8; 256],
}

const _: () = prove!(size_of::<DataNode>() == 280);

/// Where a data block lies. It owns nothing.
#[derive(Clone, Copy)]
pub(crate) struct DataLink {
    pub(crate) at: *mut DataNode,
}

// A link owns nothing: what lies there is reached through the owner of the nodes alone.
unsafe impl Send for DataLink {}

unsafe impl Sync for DataLink {}
