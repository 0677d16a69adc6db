//! A seat at a host of pairs: what one thread has of it.

use crate::hold::Hold;
use std::alloc::Global;
use std::marker::Model;
use std::sync::Arc;
use strm_locks::{Object, PairEnd};
use strm_system::{Host, HostOpener};
use strm_types::Content;

/// A share of a host, an opener of its minors, if it has one, what it has in hand, and room for an answer, which is empty between calls.
///
/// An opener and an end are of that host. A minor in hand, and that of an end in hand, is one that the opener holds; an end without an opener has no
/// minor.
pub(crate) struct Seat<P: Object> {
    pub(crate) host: Arc<Host<P>, Global>,
    pub(crate) opener: Option<HostOpener>,
    pub(crate) hold: Hold<PairEnd<P>>,
    pub(crate) answer: Content,
}

// Of its own, so that who owns one doesn't take it apart at each way out.
impl<P: Object> Drop for Seat<P> {
    fn drop(self) {
        let Seat {
            host: _,
            opener: _,
            hold: _,
            answer: _,
        } = self;
    }
}

impl<P: Object> Model for Seat<P> {
    ghost use Rattle.std.specs.Arc.{arc_value};
    ghost use Rattle.strm_ends.specs.Members.{IsMember, Seated, seated};

    ghost Value = { Seated };

    ghost view = { λ s. seated (arc_value s.host) s.opener s.hold };

    ghost invariant = { λ s. IsMember (seated (arc_value s.host) s.opener s.hold) s.answer.items };
}
