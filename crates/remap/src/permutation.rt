ghost use Rattle.std.specs.Prelude.{◌≡◌, ◌<◌, ◌^◌, length, vec_len, IfOk};
ghost use Rattle.remap.specs.NewIds.{AreNewIds, Undoes, new_id};

use no_memory::NoMemory;
use std::alloc::{AllocError, Global};
use std::marker::Model;

/// An order of fewer than 2^32 documents: the number at place d is the new id of document d.
#[derive(Drop)]
pub struct Permutation {
    ids: Vec<u32>,
}

impl Model for Permutation {
    ghost use Rattle.std.specs.Prelude.{ℕ, ◌<◌, ◌^◌, List, length};
    ghost use Rattle.remap.specs.NewIds.{AreNewIds};

    ghost Value = { List ℕ };

    ghost view = { λ p. p.ids.items };

    ghost invariant = { λ p. AreNewIds p.ids.items × (length p.ids.items < 2 ^ 32) };
}

impl Permutation {
    /// The order of these new ids, one for each document.
    pub fn new(ids: Vec<u32>) -> Permutation
        requires new_ids { AreNewIds ids.items }
        requires few { vec_len ids < 2 ^ 32 }
        ensures { result ≡ ids.items }
    {
        Permutation { ids }
    }

    /// The new id of document d.
    pub fn new_id(&self, d: u32) -> u32
        requires { d < length self.now }
        ensures { result ≡ new_id self.now d }
    {
        self.ids[d as usize]
    }

    /// The order that gives each new id its document back.
    pub fn inverse(&self, alloc: Global) -> Result<Permutation, NoMemory>
        ensures { IfOk result (λ back. Undoes self.now back) }
    {
        let ids = undone(alloc, self.ids.as_slice())?;
        Ok(Permutation { ids })
    }

    /// What every order is.
    pub fn gives_new_ids(&self)
        ensures new_ids { AreNewIds self.now }
        ensures few { length self.now < 2 ^ 32 }
    {
        let _ = &self.ids;
    }
}

// Each document at its new id.
fn undone(alloc: Global, ids: &[u32]) -> Result<Vec<u32>, AllocError>
    requires new_ids { AreNewIds ids.now }
    requires few { length ids.now < 2 ^ 32 }
    ensures undoes { IfOk result (λ back. Undoes ids.now back.items) }
    ensures new_ids { IfOk result (λ back. AreNewIds back.items) }
{
    let mut back = vec![in alloc; 0; ids.len()]?;
    for (d, id) in ids.iter().enumerate() {
        back[*id as usize] = d as u32;
    }
    Ok(back)
}
