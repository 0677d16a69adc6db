//! The tables of bands for the queues of modules, while no module has them.

ghost use Rattle.std.specs.Prelude.{ℕ, ◌≡◌, ◌≤◌, ◌<◌, ◌+◌, IfOk};
ghost use Rattle.strm_pair.specs.Shelves.{room_on, tables_on};

use std::alloc::{AllocError, Global};
use strm_frame::Tables;

/// Tables for pairs of queues of modules: as many as modules with queues may stand on the streams of a pair, less those that do. So a push asks for
/// no memory.
#[derive(Drop)]
pub(crate) struct Shelf {
    tables: Vec<Tables>,
}

impl Shelf {
    /// Asks for the memory of so many pairs of tables.
    pub fn new(alloc: Global, pairs: usize) -> Result<Shelf, AllocError>
        ensures tables { IfOk result (λ shelf. tables_on shelf ≡ pairs) }
        ensures room { IfOk result (λ shelf. pairs ≤ room_on shelf) }
    {
        let mut tables = Vec::with_capacity(alloc, pairs)?;
        for count in 0..pairs {
            let _ = count;
            tables.push_reserved(Tables::new(alloc)?);
        }
        Ok(Shelf { tables })
    }

    /// Takes the last pair off it.
    pub fn take(&mut self) -> Tables
        requires { 0 < tables_on self.old }
        ensures tables { tables_on self.new + 1 ≡ tables_on self.old }
        ensures room { room_on self.new ≡ room_on self.old }
    {
        match self.tables.pop() {
            Some(tables) => tables,
            None => unreachable!(),
        }
    }

    /// Puts a pair back onto it.
    pub fn put(&mut self, tables: Tables)
        requires { tables_on self.old < room_on self.old }
        ensures tables { tables_on self.new ≡ tables_on self.old + 1 }
        ensures room { room_on self.old ≤ room_on self.new }
    {
        self.tables.push_reserved(tables);
    }
}
