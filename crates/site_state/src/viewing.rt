//! What is shown of a site.

ghost use Rattle.std.specs.Prelude.{◌≡◌, ◌<◌, All, IfOk, OnOk, IfSome, length, slice_get};
ghost use Rattle.trust_types.specs.NameLists.{number_of};
ghost use Rattle.cert_book.specs.Books.{IsAccount, book};
ghost use Rattle.postings.specs.Posts.{articles, replies_to};
ghost use Rattle.site_history.specs.declared.queries.Query.TheVariants.{Person};
ghost use Rattle.site_history.specs.Views.{shown, said, Front, OfStewards, name_of, post_of, title_of, head_of, front_of, given_by, taken_by, entries_of, replies_shown, seeds_shown, diary_shown, article_shown, project_shown, project_named};
ghost use Rattle.site_state.specs.inner.Parts.{site_in, IsPostedBy};
ghost use Rattle.site_state.specs.inner.Seeds.{with_seed};

use crate::parts::Parts;
use crate::state::State;
use site_history::{
    ArticleHead, ArticleView, DiaryView, PersonView, PostView, ProjectView, Query, StewardsView,
    View,
};
use std::alloc::Global;
use trust_types::{AccountNo, Level, Name, NoMemory, Record, Text};

/// So many articles, and entries of a diary, are shown: the newest.
const MOST_NEW: u32 = 20;

/// So many certificates of an account, replies and seeds are shown: the first.
const MOST_LISTED: u32 = 200;

impl State {
    /// What a query shows of the site. It copies the texts that are shown. Nothing that grows with the site is searched through, but the accounts for
    /// their seeds.
    ///
    /// # Errors
    /// [`NoMemory`] where there isn't enough, and for no other cause.
    pub fn view(&self, alloc: Global, query: &Query) -> Result<View, NoMemory>
        ensures { IfOk result (λ view. said view ≡ shown self.now.history query.now) }
    {
        match query {
            Query::Front => self.parts.front(alloc),
            Query::Person(name) => self.person(alloc, name),
            Query::Diary(name) => self.parts.diary(alloc, name),
            Query::Article(no) => self.parts.article(alloc, *no),
            Query::Project(name) => self.parts.project(alloc, name),
            Query::Stewards => self.parts.stewards(alloc),
        }
    }

    /// The account of that name, with the level that it holds.
    fn person(&self, alloc: Global, word: &Text) -> Result<View, NoMemory>
        ensures { IfOk result (λ view. said view ≡ shown self.now.history (Person word.now)) }
    {
        let Some(account) = self.parts.number_of(word) else {
            return Ok(View::Missing);
        };
        let level = self.level_of(account);
        Ok(View::Person(self.parts.person(alloc, account, level)?))
    }
}

impl Parts {
    /// The newest articles.
    pub(crate) fn front(&self, alloc: Global) -> Result<View, NoMemory>
        requires { All (IsPostedBy (length (book self.now.certs).names)) self.now.posts.posts }
        ensures { IfOk result (λ view. said view ≡ Front (front_of (site_in self.now))) }
    {
        Ok(View::Front(self.heads(alloc)?))
    }

    fn heads(&self, alloc: Global) -> Result<Vec<ArticleHead>, NoMemory>
        requires { All (IsPostedBy (length (book self.now.certs).names)) self.now.posts.posts }
        ensures { IfOk result (λ heads. heads.items ≡ front_of (site_in self.now)) }
    {
        let count = self.posts.article_count();
        let shown = count.min(MOST_NEW);
        let mut heads = Vec::with_capacity(alloc, shown as usize)?;
        for i in 0..shown {
            heads.push(self.head(alloc, count - 1 - i)?)?;
        }
        Ok(heads)
    }

    /// An article without its text.
    fn head(&self, alloc: Global, no: u32) -> Result<ArticleHead, NoMemory>
        requires posts { All (IsPostedBy (length (book self.now.certs).names)) self.now.posts.posts }
        requires within { no < length (articles self.now.posts.posts) }
        ensures { IfOk result (λ head. IfSome (slice_get (articles self.now.posts.posts) no) (λ x. head ≡ head_of (site_in self.now) (no, x))) }
    {
        let entry = self.posts.article(no);
        Ok(ArticleHead {
            no,
            title: title(alloc, entry)?,
            author: self.author(entry),
        })
    }

    /// An account that holds this level, with its certificates.
    pub(crate) fn person(
        &self,
        alloc: Global,
        account: AccountNo,
        level: Level,
    ) -> Result<PersonView, NoMemory>
        requires { IsAccount (book self.now.certs) account }
        ensures name { IfOk result (λ view. view.name ≡ name_of (site_in self.now) account) }
        ensures level { IfOk result (λ view. view.level ≡ level) }
        ensures given { IfOk result (λ view. view.given.items ≡ given_by (site_in self.now) account) }
        ensures taken { IfOk result (λ view. view.taken.items ≡ taken_by (site_in self.now) account) }
    {
        Ok(PersonView {
            name: self.certs.name(account),
            level,
            given: self.given(alloc, account)?,
            taken: self.taken(alloc, account)?,
        })
    }

    /// The first certificates that an account gives.
    fn given(&self, alloc: Global, account: AccountNo) -> Result<Vec<(Name, Level)>, NoMemory>
        requires { IsAccount (book self.now.certs) account }
        ensures { IfOk result (λ lines. lines.items ≡ given_by (site_in self.now) account) }
    {
        let shown = self.certs.given_count(account).min(MOST_LISTED);
        let mut lines = Vec::with_capacity(alloc, shown as usize)?;
        for i in 0..shown {
            let cert = self.certs.given(account, i);
            lines.push((self.certs.name(cert.to), cert.level))?;
        }
        Ok(lines)
    }

    /// The first certificates that an account has taken.
    fn taken(&self, alloc: Global, account: AccountNo) -> Result<Vec<(Name, Level)>, NoMemory>
        requires { IsAccount (book self.now.certs) account }
        ensures { IfOk result (λ lines. lines.items ≡ taken_by (site_in self.now) account) }
    {
        let shown = self.certs.taken_count(account).min(MOST_LISTED);
        let mut lines = Vec::with_capacity(alloc, shown as usize)?;
        for i in 0..shown {
            let cert = self.certs.taken(account, i);
            lines.push((self.certs.name(cert.from), cert.level))?;
        }
        Ok(lines)
    }

    /// The newest entries of the diary of the account of that name.
    pub(crate) fn diary(&self, alloc: Global, word: &Text) -> Result<View, NoMemory>
        requires { All (IsPostedBy (length (book self.now.certs).names)) self.now.posts.posts }
        ensures { IfOk result (λ view. said view ≡ diary_shown (site_in self.now) word.now (number_of (book self.now.certs).names word.now)) }
    {
        let Some(account) = self.number_of(word) else {
            return Ok(View::Missing);
        };
        Ok(View::Diary(DiaryView {
            name: self.certs.name(account),
            posts: self.entries(alloc, account)?,
        }))
    }

    fn entries(&self, alloc: Global, account: AccountNo) -> Result<Vec<PostView>, NoMemory>
        requires { All (IsPostedBy (length (book self.now.certs).names)) self.now.posts.posts }
        ensures { IfOk result (λ posts. posts.items ≡ entries_of (site_in self.now) account) }
    {
        let count = self.posts.diary_count(account);
        let shown = count.min(MOST_NEW);
        let mut posts = Vec::with_capacity(alloc, shown as usize)?;
        for i in 0..shown {
            posts.push(self.post(alloc, self.posts.diary(account, count - 1 - i))?)?;
        }
        Ok(posts)
    }

    /// The article of that number, with the first replies to it.
    pub(crate) fn article(&self, alloc: Global, no: u32) -> Result<View, NoMemory>
        requires { All (IsPostedBy (length (book self.now.certs).names)) self.now.posts.posts }
        ensures { IfOk result (λ view. said view ≡ article_shown (site_in self.now) no (slice_get (articles self.now.posts.posts) no)) }
    {
        if no >= self.posts.article_count() {
            return Ok(View::Missing);
        }
        let entry = self.posts.article(no);
        Ok(View::Article(ArticleView {
            no,
            title: title(alloc, entry)?,
            post: self.post(alloc, entry)?,
            replies: self.replies(alloc, no)?,
        }))
    }

    fn replies(&self, alloc: Global, no: u32) -> Result<Vec<PostView>, NoMemory>
        requires { All (IsPostedBy (length (book self.now.certs).names)) self.now.posts.posts }
        ensures { IfOk result (λ posts. posts.items ≡ replies_shown (site_in self.now) no) }
    {
        let shown = self.posts.reply_count(no).min(MOST_LISTED);
        let mut posts = Vec::with_capacity(alloc, shown as usize)?;
        for i in 0..shown {
            posts.push(self.post(alloc, self.posts.reply(no, i))?)?;
        }
        Ok(posts)
    }

    /// The project of that name.
    pub(crate) fn project(&self, alloc: Global, word: &Text) -> Result<View, NoMemory>
        requires { All (IsPostedBy (length (book self.now.certs).names)) self.now.posts.posts }
        ensures { IfOk result (λ view. said view ≡ project_shown (site_in self.now) word.now (project_named (site_in self.now) word.now)) }
    {
        let Some(name) = Name::read(word.as_str().as_bytes()) else {
            return Ok(View::Missing);
        };
        match self.posts.project(&name) {
            Some(entry) => Ok(View::Project(ProjectView {
                name,
                post: self.post(alloc, entry)?,
            })),
            None => Ok(View::Missing),
        }
    }

    /// The table in force, and the first seeds. It looks at each account.
    pub(crate) fn stewards(&self, alloc: Global) -> Result<View, NoMemory>
        ensures { IfOk result (λ view. said view ≡ OfStewards (book self.now.certs).table (seeds_shown (site_in self.now))) }
    {
        Ok(View::Stewards(StewardsView {
            caps: *self.certs.table(),
            seeds: self.seeds(alloc)?,
        }))
    }

    fn seeds(&self, alloc: Global) -> Result<Vec<Name>, NoMemory>
        ensures { IfOk result (λ seeds. seeds.items ≡ seeds_shown (site_in self.now)) }
    {
        let mut seeds = Vec::new(alloc);
        for account in 0..self.certs.accounts() {
            self.add_seed(AccountNo(account), &mut seeds)?;
        }
        Ok(seeds)
    }

    /// Adds the name of an account that is a seed, while fewer are listed than are shown.
    fn add_seed(&self, account: AccountNo, seeds: &mut Vec<Name>) -> Result<(), NoMemory>
        requires { IsAccount (book self.now.certs) account }
        ensures { OnOk result (seeds.new.items ≡ with_seed (site_in self.now) account seeds.old.items) }
    {
        if seeds.len() < MOST_LISTED as usize && self.certs.is_seed(account) {
            seeds.push(self.certs.name(account))?;
        }
        Ok(())
    }

    /// A post.
    fn post(&self, alloc: Global, entry: &Record) -> Result<PostView, NoMemory>
        requires { IsPostedBy (length (book self.now.certs).names) entry.now }
        ensures { IfOk result (λ post. post ≡ post_of (site_in self.now) entry.now) }
    {
        match entry {
            Record::Diary {
                moment,
                author,
                text,
            }
            | Record::Article {
                moment,
                author,
                text,
                ..
            }
            | Record::Reply {
                moment,
                author,
                text,
                ..
            }
            | Record::Project {
                moment,
                author,
                text,
                ..
            } => Ok(PostView {
                author: self.certs.name(*author),
                moment: *moment,
                text: text.copy(alloc)?,
            }),
            _ => unreachable!(),
        }
    }

    /// The name of a post's author.
    fn author(&self, entry: &Record) -> Name
        requires { IsPostedBy (length (book self.now.certs).names) entry.now }
        ensures { result ≡ (post_of (site_in self.now) entry.now).author }
    {
        match entry {
            Record::Diary { author, .. }
            | Record::Article { author, .. }
            | Record::Reply { author, .. }
            | Record::Project { author, .. } => self.certs.name(*author),
            _ => unreachable!(),
        }
    }
}

/// The title of an article.
fn title(alloc: Global, entry: &Record) -> Result<Text, NoMemory>
    ensures { IfOk result (λ title. title ≡ title_of entry.now) }
{
    match entry {
        Record::Article { title, .. } => title.copy(alloc),
        _ => Text::of(alloc, ""),
    }
}
