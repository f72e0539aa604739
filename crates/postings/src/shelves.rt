//! Lists of places, one for each number, of which any may grow.

ghost use Rattle.std.specs.Prelude.{◌≡◌, ◌≢◌, ◌<◌, ◌≤◌, ◌++◌, ◌∷◌, [], ℕ, OnOk, vec_len};
ghost use Rattle.postings.specs.inner.Shelves.{places_at, room_at};

use std::alloc::{AllocError, Global};
use std::marker::Model;

/// Places among posts, in the order in which they came. Contracts see the list of them, and how many more fit before memory is taken.
#[derive(Drop)]
pub(crate) struct Shelf {
    places: Vec<u32>,
}

impl Model for Shelf {
    ghost use Rattle.std.specs.Prelude.{◌-◌, vec_len, vec_capacity};
    ghost use Rattle.postings.specs.inner.Shelves.{Shelf};

    ghost Value = { Shelf };

    ghost view = { λ shelf. record { places = shelf.places.items; room = vec_capacity shelf.places - vec_len shelf.places } };
}

impl Shelf {
    /// No place. It takes no memory.
    pub(crate) fn new(alloc: Global) -> Shelf
        ensures { result.places ≡ [] }
    {
        Shelf {
            places: Vec::new(alloc),
        }
    }

    /// The places.
    pub(crate) fn places(&self) -> &[u32]
        ensures { result.now ≡ self.now.places }
    {
        &self.places
    }

    /// Makes room for one more place.
    pub(crate) fn reserve(&mut self) -> Result<(), AllocError>
        ensures room { OnOk result (0 < self.new.room) }
        ensures same { self.new.places ≡ self.old.places }
    {
        self.places.reserve(1)
    }

    /// Puts one more place at the end.
    pub(crate) fn push(&mut self, place: u32)
        requires { 0 < self.old.room }
        ensures { self.new.places ≡ self.old.places ++ place ∷ [] }
    {
        self.places.push_reserved(place);
    }
}

/// A shelf for each number, of which those past the last are empty. Contracts see the list of the shelves.
#[derive(Drop)]
pub(crate) struct Shelves {
    shelves: Vec<Shelf>,
}

impl Model for Shelves {
    ghost use Rattle.std.specs.Prelude.{List};
    ghost use Rattle.postings.specs.inner.Shelves.{Shelf};

    ghost Value = { List Shelf };

    ghost view = { λ shelves. shelves.shelves.items };
}

impl Shelves {
    /// Nothing on any shelf. It takes no memory.
    pub(crate) fn new(alloc: Global) -> Shelves
        ensures { result ≡ [] }
    {
        Shelves {
            shelves: Vec::new(alloc),
        }
    }

    /// The places on the shelf of that number.
    pub(crate) fn at(&self, n: u32) -> &[u32]
        ensures { result.now ≡ places_at self.now n }
    {
        let shelves = &self.shelves;
        match shelves.get(n as usize) {
            Some(shelf) => shelf.places(),
            None => &[],
        }
    }

    /// Makes room for one more place on the shelf of that number.
    pub(crate) fn reserve(&mut self, n: u32) -> Result<(), AllocError>
        ensures room { OnOk result (0 < room_at self.new n) }
        ensures same { (m : ℕ) → places_at self.new m ≡ places_at self.old m }
    {
        grow(&mut self.shelves, n as usize + 1)?;
        let shelf = &mut self.shelves[n as usize];
        shelf.reserve()
    }

    /// Puts one more place on the shelf of that number.
    pub(crate) fn push(&mut self, n: u32, place: u32)
        requires { 0 < room_at self.old n }
        ensures there { places_at self.new n ≡ places_at self.old n ++ place ∷ [] }
        ensures others { (m : ℕ) → m ≢ n → places_at self.new m ≡ places_at self.old m }
    {
        let shelf = &mut self.shelves[n as usize];
        shelf.push(place);
    }
}

/// Adds empty shelves until there are so many.
fn grow(shelves: &mut Vec<Shelf>, count: usize) -> Result<(), AllocError>
    ensures long { OnOk result (count ≤ vec_len shelves.new) }
    ensures same { (m : ℕ) → places_at shelves.new.items m ≡ places_at shelves.old.items m }
{
    let alloc = *shelves.allocator();
    let missing = count.saturating_sub(shelves.len());
    shelves.reserve(missing)?;
    for _added in 0..missing {
        shelves.push_reserved(Shelf::new(alloc));
    }
    Ok(())
}
