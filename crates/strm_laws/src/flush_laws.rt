//! What a flush of a stream comes to, in the words of the STREAMS Programming Guide ("Flush Handling"). The law is the contract
//! of a function that does nothing, and holds of bytes and of bytes with their origin alike.

ghost use Rattle.std.specs.Prelude.{◌≡◌, Option};
ghost use Rattle.strm_types.specs.declared.events.FlushQueues.{FlushQueues};
ghost use Rattle.strm_types.specs.declared.kinds.Band.{Band};
ghost use Rattle.strm_types.specs.declared.names.Side.{Side};
ghost use Rattle.strm_types.specs.Cells.{Cells};
ghost use Rattle.strm_laws.specs.Earlier.{NoModules};
ghost use Rattle.strm_types.specs.Emptied.{of_data};
ghost use Rattle.strm_laws.specs.FlushEffect.{flush_effect};
ghost use Rattle.strm_laws.specs.Puts.{flushed_on};
ghost use Rattle.strm_laws.specs.State.{State};

use crate::behaviours::Behaves;

/// Where no module stands on a pair's streams, an M_FLUSH that goes down from a head takes this, with all that it gives rise to.
/// FLUSHW takes what stands on the driver's write queue, and then what stands at the other side's head, if that side is open.
/// FLUSHR takes what the other side's driver has for this stream, and then what stands at this stream's head, if it is open.
/// With both, FLUSHW comes first. What goes is data (flushq(9F): FLUSHDATA), and with FLUSHBAND that of its band alone
/// (flushband(9F)).
pub fn flush_takes_from_heads_and_drivers<C, K: Behaves>()
    ensures { (cells : Cells C) (band : Option Band) (side : Side) (what : FlushQueues) (s : State C) → NoModules s →
        flushed_on K.does cells band side what s ≡ flush_effect (of_data band) side what s }
{}
