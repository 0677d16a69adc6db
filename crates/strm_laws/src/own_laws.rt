//! Queues of modules of a user's own (srv(9E), qenable(9F); STREAMS Programming Guide, "Service Procedures"). The law is the contract of a function
//! that does nothing.

ghost use Rattle.std.specs.Prelude.{length, ◌≤◌, ◌<◌, ◌≡◌, Some, false};
ghost use Rattle.strm_types.specs.declared.names.QueueName.{QueueName};
ghost use Rattle.strm_types.specs.declared.names.Way.{Way};
ghost use Rattle.strm_types.specs.declared.spots.Spot.{Spot};
ghost use Rattle.strm_types.specs.Message.{Message};
ghost use Rattle.strm_types.specs.Names.{is_enabled};
ghost use Rattle.strm_types.specs.OwnStands.{OwnActs, Wakes, own_puts, own_serves};
ghost use Rattle.strm_types.specs.Owns.{Own};
ghost use Rattle.strm_types.specs.Standings.{QueuePair, stood};
ghost use Rattle.strm_laws.specs.Restorable.{IsThere, Restorable};
ghost use Rattle.strm_laws.specs.StackCosts.{stands_of};
ghost use Rattle.strm_laws.specs.State.{State};

/// What lets the first message of a queue go on, where there is room, enables the queue: where it asks for room behind a put, or behind a call of the
/// service procedure, that what stood first before didn't ask for, the queue of its way is noted as enabled. So none is left at a queue that nothing
/// enables: the turn of an enabled queue moves it on, or leaves a writer that waits for the room that it asks for.
pub fn own_queues_wake<C>()
    ensures put { (own : OwnActs C) (way : Way) (here : Spot) (m : Message C) (o : Own) (pair : QueuePair C) →
        Wakes own way (stood o (Some pair)) (own_puts own here m (stood o (Some pair))) }
    ensures serve { (own : OwnActs C) (way : Way) (here : Spot) (o : Own) (pair : QueuePair C) →
        Wakes own way (stood o (Some pair)) (own_serves own here (stood o (Some pair))).acted }
{}

/// At most 14 queues are enabled of a pair that an image may hold, as each is: a driver's on each side, and two of each of three modules. While one
/// that is there isn't enabled, there are fewer.
pub fn few_queues_are_enabled<C>()
    ensures few { (s : State C) → Restorable s → length s.enabled ≤ 14 }
    ensures room { (s : State C) (name : QueueName) → Restorable s → IsThere (stands_of s) name → is_enabled name s.enabled ≡ false →
        length s.enabled < 14 }
{}
