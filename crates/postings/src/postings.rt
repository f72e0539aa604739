//! The posts of a site.

ghost use Rattle.std.specs.Prelude.{◌≡◌, ◌<◌, ◌++◌, ◌∷◌, [], Some, None, IsSome, OnOk, length, slice_get, slice_index, find, option_copied};
ghost use Rattle.posting_policy.specs.declared.PostKind.TheVariants.{Reply as OfReply};
ghost use Rattle.postings.specs.Posts.{diary_of, articles, replies_to, projects, is_project_named, room_of, room_for, number_after, Follows};
ghost use Rattle.postings.specs.Judged.{article_there, name_free, judged_diary, judged_article, judged_reply, judged_project};

use crate::judging::{PostFault, fits};
use crate::places::{Places, Room};
use posting_policy::PostKind;
use std::alloc::Global;
use std::marker::Model;
use trust_types::{AccountNo, Name, NoMemory, Record, Text};

/// The posts of a site: the records of diary entries, articles, replies and projects. Contracts see them in the order in which they were added,
/// and for what post room is reserved.
///
/// Numbers count from 0: of diary entries by author, of replies by article, of articles and projects over the site. A post is found by its number
/// without a search. A project is found by its name as fast as an account is.
#[derive(Drop)]
pub struct Postings {
    posts: Vec<Record>,
    places: Places,
    room: Option<Room>,
}

impl Model for Postings {
    ghost use Rattle.std.specs.Prelude.{◌<◌, ◌^◌, IfSome, length, vec_len, vec_capacity};
    ghost use Rattle.postings.specs.Posts.{Posts};
    ghost use Rattle.postings.specs.inner.Places.{ArePlacesOf, HasRoom};

    ghost Value = { Posts };

    ghost view = { λ postings. record { posts = postings.posts.items; room = postings.room } };

    ghost invariant = { λ postings. record {
      few : length postings.posts.items < 2 ^ 32;
      kept : ArePlacesOf postings.posts.items postings.places;
      room : IfSome postings.room (λ room. (vec_len postings.posts < vec_capacity postings.posts) × HasRoom postings.places room);
    } };
}

impl Postings {
    /// No post. It takes no memory.
    pub fn new(alloc: Global) -> Postings
        ensures { result.posts ≡ [] }
    {
        Postings {
            posts: Vec::new(alloc),
            places: Places::new(alloc),
            room: None,
        }
    }

    /// Whether this text may be an entry of a diary. It takes no memory.
    ///
    /// # Errors
    /// [`PostFault::LongText`] where it is too long.
    pub fn judge_diary(&self, text: &Text) -> Result<(), PostFault>
        ensures { result ≡ judged_diary text.now }
    {
        fits(text)
    }

    /// Whether these may be an article. It takes no memory.
    ///
    /// # Errors
    /// [`PostFault::LongText`] with the length of the title where that is too long, else with that of the text where that is.
    pub fn judge_article(&self, title: &Text, text: &Text) -> Result<(), PostFault>
        ensures { result ≡ judged_article title.now text.now }
    {
        fits(title)?;
        fits(text)
    }

    /// Whether this text may be a reply to the article of that number. It takes no memory.
    ///
    /// # Errors
    /// The first that applies: [`PostFault::NoSuchArticle`] where there is none of that number, [`PostFault::LongText`] where the text is too long.
    pub fn judge_reply(&self, article: u32, text: &Text) -> Result<(), PostFault>
        ensures { result ≡ judged_reply self.now.posts article text.now }
    {
        self.article_there(article)?;
        fits(text)
    }

    /// Whether a project of that name and text may be opened. It takes no memory.
    ///
    /// # Errors
    /// The first that applies: [`PostFault::BadName`] where the word is no name, [`PostFault::NameTaken`] with the number of the project that has it,
    /// [`PostFault::LongText`] where the text is too long.
    pub fn judge_project(&self, name: &Text, text: &Text) -> Result<(), PostFault>
        ensures { result ≡ judged_project self.now.posts name.now text.now }
    {
        self.name_free(name)?;
        fits(text)
    }

    fn article_there(&self, article: u32) -> Result<(), PostFault>
        ensures { result ≡ article_there self.now.posts article }
    {
        if article < self.article_count() {
            Ok(())
        } else {
            Err(PostFault::NoSuchArticle)
        }
    }

    fn name_free(&self, word: &Text) -> Result<(), PostFault>
        ensures { result ≡ name_free self.now.posts word.now }
    {
        let Some(name) = Name::read(word.as_str().as_bytes()) else {
            return Err(PostFault::BadName);
        };
        match self.places.names.find(&name) {
            Some(number) => Err(PostFault::NameTaken(number)),
            None => Ok(()),
        }
    }

    /// Makes room for one post of a kind: of a diary by this author, of a reply to this article; else neither is looked at. Room that was reserved
    /// before is given up. The posts stay as they are, whatever it answers.
    ///
    /// The first entry of a diary takes memory for a list of each account below its author too, where that has none; the first reply to an
    /// article likewise.
    ///
    /// # Errors
    /// [`NoMemory`] where there isn't enough.
    pub fn reserve(
        &mut self,
        kind: PostKind,
        author: AccountNo,
        article: u32,
    ) -> Result<(), NoMemory>
        requires { kind ≡ OfReply → article < length (articles self.old.posts) }
        ensures room { OnOk result (self.new.room ≡ Some (room_for kind author article)) }
        ensures same { self.new.posts ≡ self.old.posts }
    {
        let room = room_for(kind, author, article);
        self.room = None;
        self.posts.reserve(1)?;
        self.places.reserve(&room)?;
        self.room = Some(room);
        Ok(())
    }

    /// Adds a post, behind those that are there, and gives its number. It takes no memory and cannot fail.
    ///
    /// The record is that of a post for which room is reserved; the article of a reply is there, and no project has a project's name.
    pub fn add(&mut self, entry: Record) -> u32
        requires few { length self.old.posts < 4_294_967_295 }
        requires post { IsSome (room_of entry) }
        requires room { self.old.room ≡ room_of entry }
        requires follows { Follows self.old.posts entry }
        ensures posts { self.new.posts ≡ self.old.posts ++ entry ∷ [] }
        ensures number { result ≡ number_after self.old.posts entry }
    {
        let number = self.places.push(&self.posts, &entry);
        self.posts.push_reserved(entry);
        self.room = None;
        number
    }

    /// How many posts there are.
    pub fn count(&self) -> u32
        ensures { result ≡ length self.now.posts }
    {
        self.posts.len() as u32
    }

    /// How many entries the author's diary has.
    pub fn diary_count(&self, author: AccountNo) -> u32
        ensures { result ≡ length (diary_of self.now.posts author) }
    {
        self.places.diaries.at(author.0).len() as u32
    }

    /// An entry of the author's diary, by its number.
    pub fn diary(&self, author: AccountNo, n: u32) -> &Record
        requires { n < length (diary_of self.now.posts author) }
        ensures { Some result.now ≡ slice_get (diary_of self.now.posts author) n }
    {
        post_at(&self.posts, self.places.diaries.at(author.0), n)
    }

    /// How many articles there are.
    pub fn article_count(&self) -> u32
        ensures { result ≡ length (articles self.now.posts) }
    {
        self.places.articles.places().len() as u32
    }

    /// An article, by its number.
    pub fn article(&self, n: u32) -> &Record
        requires { n < length (articles self.now.posts) }
        ensures { Some result.now ≡ slice_get (articles self.now.posts) n }
    {
        post_at(&self.posts, self.places.articles.places(), n)
    }

    /// How many replies the article of that number has; 0 where there is none of that number.
    pub fn reply_count(&self, n: u32) -> u32
        ensures { result ≡ length (replies_to self.now.posts n) }
    {
        self.places.replies.at(n).len() as u32
    }

    /// A reply to the article of number `n`, by its own number.
    pub fn reply(&self, n: u32, i: u32) -> &Record
        requires { i < length (replies_to self.now.posts n) }
        ensures { Some result.now ≡ slice_get (replies_to self.now.posts n) i }
    {
        post_at(&self.posts, self.places.replies.at(n), i)
    }

    /// How many projects there are.
    pub fn project_count(&self) -> u32
        ensures { result ≡ length (projects self.now.posts) }
    {
        self.places.projects.places().len() as u32
    }

    /// The project of that name; `None` where no project has it. It looks the name up as [`NameNumbers`](name_index::NameNumbers) does.
    pub fn project(&self, name: &Name) -> Option<&Record>
        ensures { option_copied result ≡ find (is_project_named name.now) self.now.posts }
    {
        match self.places.names.find(name) {
            Some(number) => Some(post_at(&self.posts, self.places.projects.places(), number)),
            None => None,
        }
    }
}

/// For what room is reserved.
fn room_for(kind: PostKind, author: AccountNo, article: u32) -> Room
    ensures { result ≡ room_for kind author article }
{
    match kind {
        PostKind::Diary => Room::Diary(author),
        PostKind::Article => Room::Article,
        PostKind::Reply => Room::Reply(article),
        PostKind::Project => Room::Project,
    }
}

/// The post at the n-th of these places.
fn post_at<'a>(posts: &'a [Record], places: &[u32], n: u32) -> &'a Record
    requires within { n < length places.now }
    requires inside { slice_index places.now n < length posts.now }
    ensures { Some result.now ≡ slice_get posts.now (slice_index places.now n) }
{
    &posts[places[n as usize] as usize]
}
