//! The ioctl that is under way on a stream.

/// The slot of a stream head for the ioctl that is under way (streamio(7I): I_STR), over what stands for the bytes of its
/// answer. It is taken from the call until the answer was given, so a stream has one ioctl at a time.
#[derive(Clone, Copy, Drop)]
pub enum Slot<T> {
    /// None is under way.
    Free,
    /// It has this number, and waits for its answer.
    Waiting {
        number: u32,
        command: u32,
    },
    /// It was answered, with M_IOCACK or else with M_IOCNAK, and its answer wasn't given yet: the error of the answer's header
    /// as it came, and what stands for the bytes behind that header.
    Answered {
        number: u32,
        command: u32,
        acked: bool,
        error: u32,
        body: T,
    },
}
