//! Modules of a user's own, which are pushed on a stream beside those that stand here (STREAMS Programming Guide, "Modules").

ghost use Rattle.strm_laws.specs.Behaviours.{Behaviour};

/// What modules of a user's own do, and that they lose no byte, keep within the table of such modules and do the same whatever stands for bytes.
pub trait Behaves {
    ghost does: { Behaviour };
}
