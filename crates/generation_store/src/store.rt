ghost use Rattle.std.specs.Prelude.{◌≡◌, true, false, [], ◌∷◌, ◌++◌, OnOk, OnErr, map};
ghost use Rattle.std.specs.Arc.{arc_value};

use crate::Edition;
use fw_base::OutOfMemory;
use std::alloc::Global;
use std::marker::Model;
use std::sync::Arc;

/// Editions in the order of their publication.
#[derive(Drop)]
pub struct Store {
    editions: Vec<Arc<Edition>>,
    is_ready: bool,
}

impl Model for Store {
    ghost use Rattle.std.specs.Prelude.{◌≡◌, ◌<◌, true, map, vec_len, vec_capacity};
    ghost use Rattle.std.specs.Arc.{arc_value};
    ghost use Rattle.generation_store.specs.Held.{Held};

    ghost Value = { Held };

    ghost view = { λ s. record { editions = map arc_value s.editions.items; ready = s.is_ready } };

    ghost invariant = { λ s. s.is_ready ≡ true → vec_len s.editions < vec_capacity s.editions };
}

impl Store {
    /// No edition, and no room for one.
    pub fn new(alloc: Global) -> Store
        ensures { result ≡ record { editions = []; ready = false } }
    {
        Store {
            editions: Vec::new(alloc),
            is_ready: false,
        }
    }

    /// Makes room for one more edition.
    pub fn ready(&mut self) -> Result<(), OutOfMemory>
        ensures made { OnOk result (self.new ≡ record self.old { ready = true }) }
        ensures unchanged { OnErr result (self.new ≡ self.old) }
    {
        self.editions.reserve(1)?;
        self.is_ready = true;
        Ok(())
    }

    /// Adds the edition as the last one. It takes no memory: the room was made before.
    pub fn push(&mut self, edition: Arc<Edition>)
        requires room { self.old.ready ≡ true }
        ensures { self.new ≡ record {
          editions = self.old.editions ++ arc_value edition ∷ [];
          ready = false;
        } }
    {
        self.editions.push_reserved(edition);
        self.is_ready = false;
    }

    /// The editions in the order of their publication.
    pub fn all(&self) -> &[Arc<Edition>]
        ensures { map arc_value result.now ≡ self.now.editions }
    {
        &self.editions
    }

    /// The editions, taken out.
    pub fn into_all(self) -> Vec<Arc<Edition>>
        ensures { map arc_value result.items ≡ self.editions }
    {
        self.editions
    }
}
