//! The list of enabled queues.

ghost use Rattle.std.specs.Prelude.{◌≡◌, ◌≤◌, true, [], length, IfSome};
ghost use Rattle.std.specs.Bool.{OnTrue};
ghost use Rattle.strm_types.specs.Names.{AreQueues, is_enabled, enable, enable_if, enable_found, without};
ghost use Rattle.strm_types.specs.Modules.{without_module};
ghost use Rattle.strm_frame.specs.MayEnable.{MayEnable};

use arrayvec::ArrayVec;
use std::marker::Model;
use strm_types::{ModuleName, Place, QueueName, Side, Way};

/// The enabled queues, in order of enabling, each once, and none of a place without queues: 14 at most, as two of a driver, and two of each of three
/// modules on either side. Contracts see their names as a list.
#[derive(Drop)]
pub struct Enabled {
    names: ArrayVec<QueueName, 14>,
}

impl Model for Enabled {
    ghost use Rattle.std.specs.Prelude.{List};
    ghost use Rattle.strm_types.specs.declared.names.QueueName.{QueueName};
    ghost use Rattle.strm_types.specs.Names.{AreQueues, IsOnce};

    ghost Value = { List QueueName };

    ghost view = { λ e. e.names.items };

    ghost invariant = { λ e. IsOnce e.names.items × AreQueues e.names.items };
}

// Whether a name is one of these.
fn is_among(names: &[QueueName], name: QueueName) -> bool
    ensures { result ≡ is_enabled name names.now }
{
    for other in names {
        if other.is_same(name) {
            return true;
        }
    }
    false
}

impl Enabled {
    /// No queue.
    pub fn new() -> Enabled
        ensures { result ≡ [] }
    {
        Enabled {
            names: ArrayVec::new(),
        }
    }

    /// The names, in order of enabling.
    pub fn as_slice(&self) -> &[QueueName]
        ensures names { result.now ≡ self.now }
        ensures few { length result.now ≤ 14 }
        ensures queues { AreQueues result.now }
    {
        self.names.as_slice()
    }

    /// Whether a queue is enabled. The first one is asked for most.
    #[inline(always)]
    pub fn contains(&self, name: QueueName) -> bool
        ensures { result ≡ is_enabled name self.now }
    {
        match self.names.as_slice().split_first() {
            None => false,
            Some((first, rest)) => first.is_same(name) || is_among(rest, name),
        }
    }

    /// Enables a queue, behind all others, unless it is enabled: `qenable(9F)`. A place without queues has none that could be. There is room for
    /// 14.
    #[inline(always)]
    pub fn enable(&mut self, name: QueueName)
        requires room { MayEnable self.old name }
        ensures { self.new ≡ enable name self.old }
    {
        if name.place.has_queues() && !self.contains(name) {
            self.names.push(name);
        }
    }

    /// Enables a queue, if there is one.
    #[inline(always)]
    pub fn enable_found(&mut self, name: Option<QueueName>)
        requires room { IfSome name (MayEnable self.old) }
        ensures { self.new ≡ enable_found name self.old }
    {
        if let Some(name) = name {
            self.enable(name);
        }
    }

    /// Enables a queue on a condition.
    #[inline(always)]
    pub fn enable_if(&mut self, condition: bool, name: QueueName)
        requires room { condition ≡ true → MayEnable self.old name }
        ensures { self.new ≡ enable_if condition name self.old }
    {
        if condition {
            self.enable(name);
        }
    }

    // Whether a queue is the only one that is enabled.
    #[inline(always)]
    fn is_only(&self, name: QueueName) -> bool
        ensures one { OnTrue result (length self.now ≡ 1) }
        ensures none_else { OnTrue result (without name self.now ≡ []) }
    {
        match self.names.as_slice() {
            [only] => only.is_same(name),
            _ => false,
        }
    }

    /// Takes a queue off the list. Most often it is the only one.
    #[inline(always)]
    pub fn remove(&mut self, name: QueueName)
        ensures { self.new ≡ without name self.old }
    {
        if self.is_only(name) {
            self.names.pop();
            return;
        }
        self.remove_among(name);
    }

    // Takes a queue off a list on which others stand.
    fn remove_among(&mut self, name: QueueName)
        ensures { self.new ≡ without name self.old }
    {
        let mut rest = ArrayVec::new();
        for other in self.names.as_slice() {
            if !other.is_same(name) {
                rest.push(*other);
            }
        }
        self.names = rest;
    }

    /// Takes the queues of a module off the list, read and write, that is taken off a side's stream itself.
    pub fn forget(&mut self, side: Side, name: ModuleName)
        ensures { self.new ≡ without_module side name self.old }
    {
        let place = Place::Module(name);
        self.remove(QueueName {
            side,
            place,
            way: Way::Up,
        });
        self.remove(QueueName {
            side,
            place,
            way: Way::Down,
        });
    }
}
