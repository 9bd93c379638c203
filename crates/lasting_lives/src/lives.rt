//! What the server knows of its keys besides what its node has.

ghost use Rattle.std.specs.Prelude.{◌≡◌, [], false, None, Some, OnOk, option_map, if◌then◌else◌};
ghost use Rattle.std.specs.Map.{lookup};
ghost use Rattle.ft_io.specs.declared.Key.{Key as key_type};
ghost use Rattle.ft_io.specs.Key.{key_eq};
ghost use Rattle.lasting_lives.specs.Lives.{resting_in, watch_in, all_older, receipt, left};

use crate::life::{Life, Resting};
use crate::watch::Watch;
use ft_io::{Key, NoMemory};
use indexmap::IndexMap;
use std::alloc::Global;
use std::marker::Model;

/// The watches of all live connections, and the quarantine of all that are done, by their keys. It has no other keys, so its memory is bounded by the places
/// that are alive or in quarantine.
#[derive(Drop)]
pub struct Lives {
    of: IndexMap<Key, Life>,
}

impl Model for Lives {
    ghost use Rattle.std.specs.Prelude.{List};
    ghost use Rattle.ft_io.specs.declared.Key.{Key as key_type};
    ghost use Rattle.lasting_lives.specs.declared.life.Life.{Life as life_type};

    ghost Value = { List (key_type × life_type) };

    ghost view = { λ lives. lives.of.entries };
}

impl Lives {
    /// Nothing is allocated yet.
    pub fn new(alloc: Global) -> Lives
        ensures { result ≡ [] }
    {
        Lives {
            of: IndexMap::new(alloc),
        }
    }

    /// The quarantine of a connection that is done.
    pub fn resting(&self, key: Key) -> Option<Resting>
        ensures { result ≡ resting_in (lookup (key_eq key) self.now) }
    {
        match self.of.get(&key) {
            Some(Life::Resting(resting)) => Some(*resting),
            _ => None,
        }
    }

    /// The watch of a live connection.
    pub fn watch(&self, key: Key) -> Option<Watch>
        ensures { result ≡ watch_in (lookup (key_eq key) self.now) }
    {
        match self.of.get(&key) {
            Some(Life::Watched(watch)) => Some(*watch),
            _ => None,
        }
    }

    /// Notes what is known of a key from now on.
    pub fn put(&mut self, key: Key, life: Life) -> Result<(), NoMemory>
        ensures { OnOk result ((k : key_type) → lookup (key_eq k) self.new ≡ (if key_eq key k then Some life else lookup (key_eq k) self.old)) }
    {
        self.of.insert(key, life)?;
        Ok(())
    }

    /// Notes that a packet of a live connection's client came.
    pub fn receive(&mut self, key: Key)
        ensures its { lookup (key_eq key) self.new ≡ option_map receipt (lookup (key_eq key) self.old) }
        ensures others { (k : key_type) → key_eq key k ≡ false → lookup (key_eq k) self.new ≡ lookup (key_eq k) self.old }
    {
        if let Some(life) = self.of.get_mut(&key) {
            life.receive();
        }
    }

    /// Ends a connection's quarantine of `wait` ticks.
    pub fn leave(&mut self, key: Key, wait: u32)
        ensures its { lookup (key_eq key) self.new ≡ option_map (left wait) (lookup (key_eq key) self.old) }
        ensures others { (k : key_type) → key_eq key k ≡ false → lookup (key_eq k) self.new ≡ lookup (key_eq k) self.old }
    {
        if let Some(life) = self.of.get_mut(&key) {
            life.leave(wait);
        }
    }

    /// Forgets a key. The others keep their order.
    pub fn forget(&mut self, key: Key)
        ensures { (k : key_type) → lookup (key_eq k) self.new ≡ (if key_eq key k then None else lookup (key_eq k) self.old) }
    {
        drop(self.of.shift_remove(&key));
    }

    /// Notes that a tick has passed.
    pub fn tick(&mut self)
        ensures { self.new ≡ all_older self.old }
    {
        tick_all(&mut self.of);
    }
}

fn tick_all(lives: &mut IndexMap<Key, Life>)
    ensures { lives.new.entries ≡ all_older lives.old.entries }
{
    for i in 0..lives.len() {
        lives[i].tick();
    }
}
