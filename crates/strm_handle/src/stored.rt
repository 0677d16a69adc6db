//! A trace as its handle has it.

use std::marker::Model;
use strm_image::Trace;

/// A trace in one piece of memory. Contracts see the trace.
#[derive(Drop)]
pub(crate) struct Stored {
    pub(crate) trace: Trace,
}

impl Model for Stored {
    ghost use Rattle.strm_image.specs.declared.trace.Trace.{Trace};

    ghost Value = { Trace };

    ghost view = { λ s. s.trace };
}
