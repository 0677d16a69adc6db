//! A call as a C program asks for it.

/// A call: which one, its caller, and its numbers. Its bytes stand beside it.
#[repr(C)]
#[derive(Drop)]
pub struct Ask {
    pub op: u32,
    pub side: u32,
    pub a: u32,
    pub b: u32,
    pub c: u32,
    /// The caller's process group; 0 is none.
    pub group: u32,
    /// Whether it ignores or blocks SIGTTIN and SIGTTOU.
    pub ignores: bool,
    /// Whether its process group is orphaned.
    pub orphaned: bool,
}

impl Ask {
    /// Numbers that are all 0.
    pub(crate) const fn none() -> Ask {
        Ask {
            op: 0,
            side: 0,
            a: 0,
            b: 0,
            c: 0,
            group: 0,
            ignores: false,
            orphaned: false,
        }
    }
}
