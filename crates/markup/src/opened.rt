ghost use Rattle.std.specs.Prelude.{◌≡◌, [], ◌∷◌, OnOk, MatchOption};
ghost use Rattle.std.specs.List.{list_any};
ghost use Rattle.markup.specs.Elements.{is_open, is_same};
ghost use Rattle.markup.specs.Cleaning.{is_full};

use crate::elements::Element;
use std::alloc::Global;
use std::marker::Model;
use trust_types::NoMemory;

/// At most so many elements are open at once.
const DEPTH: usize = 64;

/// The elements that are open at a place of a text. Contracts see their list, the uppermost first.
#[derive(Drop)]
pub struct Opened {
    elements: Vec<Element>,
}

impl Model for Opened {
    ghost use Rattle.std.specs.Prelude.{List, reverse};
    ghost use Rattle.markup.specs.declared.elements.Element.{Element};

    ghost Value = { List Element };

    ghost view = { λ opened. reverse opened.elements.items };
}

fn has(elements: &[Element], element: Element) -> bool
    ensures { result ≡ list_any (is_same element) elements.now }
{
    elements.iter().any(|other| element.is_same(*other))
}

impl Opened {
    /// None is open.
    pub fn new(alloc: Global) -> Opened
        ensures { result ≡ [] }
    {
        Opened {
            elements: Vec::new(alloc),
        }
    }

    /// Whether the element is open. It looks at 64 elements at most.
    pub fn holds(&self, element: Element) -> bool
        ensures { result ≡ is_open element self.now }
    {
        has(&self.elements, element)
    }

    /// Whether no more may be opened.
    pub fn is_full(&self) -> bool
        ensures { result ≡ is_full self.now }
    {
        DEPTH <= self.elements.len()
    }

    /// Opens the element.
    pub fn push(&mut self, element: Element) -> Result<(), NoMemory>
        ensures { OnOk result (self.new ≡ element ∷ self.old) }
    {
        self.elements.push(element)?;
        Ok(())
    }

    /// Closes the uppermost element.
    pub fn pop(&mut self) -> Option<Element>
        ensures { MatchOption result ((self.old ≡ []) × (self.new ≡ [])) (λ top. self.old ≡ top ∷ self.new) }
    {
        self.elements.pop()
    }
}
