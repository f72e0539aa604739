//! Where each post stands, by its number.

ghost use Rattle.std.specs.Prelude.{◌≡◌, ◌<◌, ◌++◌, ◌∷◌, [], List, OnOk, IfSome, IsSome, length};
ghost use Rattle.trust_types.specs.declared.records.Record.{Record as Kept};
ghost use Rattle.postings.specs.Posts.{room_of, number_after, Follows};
ghost use Rattle.postings.specs.inner.Places.{ArePlacesOf, HasRoom};

use crate::shelves::{Shelf, Shelves};
use name_index::NameNumbers;
use std::alloc::Global;
use trust_types::{AccountNo, NoMemory, Record};

/// For what post room is reserved.
#[derive(Clone, Copy, Debug, PartialEq, Eq)]
pub enum Room {
    /// An entry of this account's diary.
    Diary(AccountNo),
    /// An article.
    Article,
    /// A reply to the article of this number.
    Reply(u32),
    /// A project.
    Project,
}

/// The place of each post among all, by its number: of diary entries by author, of replies by article. A project's number is found by its name.
#[derive(Drop)]
pub(crate) struct Places {
    pub(crate) diaries: Shelves,
    pub(crate) articles: Shelf,
    pub(crate) replies: Shelves,
    pub(crate) projects: Shelf,
    pub(crate) names: NameNumbers,
}

impl Places {
    /// The places of no posts. It takes no memory.
    pub(crate) fn new(alloc: Global) -> Places
        ensures { ArePlacesOf [] result }
    {
        Places {
            diaries: Shelves::new(alloc),
            articles: Shelf::new(alloc),
            replies: Shelves::new(alloc),
            projects: Shelf::new(alloc),
            names: NameNumbers::new(alloc),
        }
    }

    /// Makes room for the place of one more post. The places stay as they are, whatever it answers.
    pub(crate) fn reserve(&mut self, room: &Room) -> Result<(), NoMemory>
        ensures room { OnOk result (HasRoom self.new room.now) }
        ensures same { (posts : List Kept) → ArePlacesOf posts self.old → ArePlacesOf posts self.new }
    {
        match room {
            Room::Diary(author) => Ok(self.diaries.reserve(author.0)?),
            Room::Article => Ok(self.articles.reserve()?),
            Room::Reply(article) => Ok(self.replies.reserve(*article)?),
            Room::Project => {
                self.projects.reserve()?;
                self.names.reserve()
            }
        }
    }

    /// Adds the place of a post that comes after these, and gives its number.
    pub(crate) fn push(&mut self, posts: &[Record], entry: &Record) -> u32
        requires few { length posts.now < 4_294_967_295 }
        requires kept { ArePlacesOf posts.now self.old }
        requires post { IsSome (room_of entry.now) }
        requires room { IfSome (room_of entry.now) (HasRoom self.old) }
        requires follows { Follows posts.now entry.now }
        ensures kept { ArePlacesOf (posts.now ++ entry.now ∷ []) self.new }
        ensures number { result ≡ number_after posts.now entry.now }
    {
        let place = posts.len() as u32;
        match entry {
            Record::Diary { author, .. } => {
                let number = self.diaries.at(author.0).len() as u32;
                self.diaries.push(author.0, place);
                number
            }
            Record::Article { .. } => {
                let number = self.articles.places().len() as u32;
                self.articles.push(place);
                number
            }
            Record::Reply { article, .. } => {
                let number = self.replies.at(*article).len() as u32;
                self.replies.push(*article, place);
                number
            }
            Record::Project { name, .. } => {
                let number = self.projects.places().len() as u32;
                self.projects.push(place);
                self.names.push(name, number);
                number
            }
            _ => 0,
        }
    }
}
