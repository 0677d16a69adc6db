//! A first session on a pair: what the master writes is carried to the slave, and read there.
#![tactic(auto)]

use strm_pair::Pair;
use strm_raw::RawStore;
use strm_types::{Caller, Config, Content, Event, Refusal, Side};

const SIZES: Config = Config {
    mblks: 256,
    dblks: 256,
    journal_events: 8192,
    journal_bytes: 262_144,
};

// Opens both sides, writes, makes the turns, and reads. Each refusal has a name, and leaves the pair as it was.
fn session(pair: &mut Pair<RawStore>, out: &mut Content) -> Result<(), Refusal> {
    let (master, slave) = (Caller::of(Side::Master), Caller::of(Side::Slave));
    pair.call(master, &Event::OpenMaster, out)?;
    pair.call(master, &Event::Unlock, out)?;
    pair.call(slave, &Event::OpenSlave, out)?;
    pair.write(master, b"abc", out)?; // Answer::Count(3)
    let ran = pair.runqueues(); // one turn: the driver carries them to the slave's head
    if let Some(refusal) = ran.stopped {
        return Err(refusal);
    }
    pair.read(slave, 10, out)?; // Answer::Bytes(3), and out holds them
    Ok(())
}

fn main(rt: HostRuntime) -> anyhow::Result<()> {
    let mut pair: Pair<RawStore> = Pair::reserve(rt.alloc(), SIZES)?;
    let mut out = Content::new();
    session(&mut pair, &mut out)?;
    println!(rt; "{}", str::from_utf8(out.as_slice())?)?;
    Ok(())
}
