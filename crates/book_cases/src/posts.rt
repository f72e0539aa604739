//! Posts that are added. A step is the row of a record: the record is judged, room is made for it and it is added; the answer is the number that it
//! got, or why it was refused.

ghost use Rattle.std.specs.Prelude.{◌≡◌, ◌<◌, None, IsSome, OnOk, length};
ghost use Rattle.trust_types.specs.NameLists.{number_of};
ghost use Rattle.postings.specs.Posts.{Follows, articles, projects, room_of};

use posting_policy::PostKind;
use postings::{PostFault, Postings};
use std::alloc::{AllocError, Global};
use trust_types::{Name, NoMemory, Record, Text};

/// Why a post isn't added.
#[derive(Drop)]
enum Refusal {
    /// The record is none of a post.
    NoPost,
    Fault(PostFault),
    /// There are as many posts as may be.
    Full,
    NoMemory,
}

impl From<PostFault> for Refusal {
    fn from(fault: PostFault) -> Refusal {
        Refusal::Fault(fault)
    }
}

impl From<NoMemory> for Refusal {
    fn from(_refusal: NoMemory) -> Refusal {
        Refusal::NoMemory
    }
}

/// Whether this may be a reply to that article, which is there then.
fn judge_reply(postings: &Postings, article: u32, text: &Text) -> Result<(), PostFault>
    ensures { OnOk result (article < length (articles postings.now.posts)) }
{
    postings.judge_reply(article, text)
}

/// Whether a project of that name and text may be opened. No project has the name then.
fn judge_word(postings: &Postings, word: &Text, text: &Text) -> Result<(), PostFault>
    ensures { OnOk result (number_of (projects postings.now.posts) word.now ≡ None) }
{
    postings.judge_project(word, text)
}

/// The same of a name.
fn judge_project(
    alloc: Global,
    postings: &Postings,
    name: &Name,
    text: &Text,
) -> Result<(), Refusal>
    ensures { OnOk result (number_of (projects postings.now.posts) name.now ≡ None) }
{
    let word = Text::of(alloc, name.as_str())?;
    judge_word(postings, &word, text)?;
    Ok(())
}

/// Judges a record. Accepted, it is a post that may follow.
fn judge(alloc: Global, postings: &Postings, entry: &Record) -> Result<(), Refusal>
    ensures post { OnOk result (IsSome (room_of entry.now)) }
    ensures follows { OnOk result (Follows postings.now.posts entry.now) }
{
    match entry {
        Record::Diary { text, .. } => Ok(postings.judge_diary(text)?),
        Record::Article { title, text, .. } => Ok(postings.judge_article(title, text)?),
        Record::Reply { article, text, .. } => Ok(judge_reply(postings, *article, text)?),
        Record::Project { name, text, .. } => judge_project(alloc, postings, name, text),
        _ => Err(Refusal::NoPost),
    }
}

/// Makes room for a post. The posts stay as they are.
fn make_room(postings: &mut Postings, entry: &Record) -> Result<(), NoMemory>
    requires post { IsSome (room_of entry.now) }
    requires follows { Follows postings.old.posts entry.now }
    ensures room { OnOk result (postings.new.room ≡ room_of entry.now) }
    ensures same { postings.new.posts ≡ postings.old.posts }
{
    match entry {
        Record::Diary { author, .. } => postings.reserve(PostKind::Diary, *author, 0),
        Record::Article { author, .. } => postings.reserve(PostKind::Article, *author, 0),
        Record::Reply {
            author,
            article,
            ..
        } => postings.reserve(PostKind::Reply, *author, *article),
        Record::Project { author, .. } => postings.reserve(PostKind::Project, *author, 0),
        _ => unreachable!(),
    }
}

/// Whether there are fewer posts than may be.
fn not_full(postings: &Postings) -> Result<(), Refusal>
    ensures { OnOk result (length postings.now.posts < 4_294_967_295) }
{
    if postings.count() < u32::MAX {
        Ok(())
    } else {
        Err(Refusal::Full)
    }
}

/// Judges a record, makes room for it and adds it. Gives the number that it got.
fn add(alloc: Global, postings: &mut Postings, entry: Record) -> Result<u32, Refusal> {
    judge(alloc, postings, &entry)?;
    not_full(postings)?;
    make_room(postings, &entry)?;
    Ok(postings.add(entry))
}

/// The word for a post.
fn kind_of(entry: &Record) -> &'static str {
    match entry {
        Record::Diary { .. } => "diary",
        Record::Article { .. } => "article",
        Record::Reply { .. } => "reply",
        _ => "project",
    }
}

/// A fault in words.
pub(crate) fn fault_text(alloc: Global, fault: PostFault) -> Result<String, AllocError> {
    match fault {
        PostFault::NoSuchArticle => String::from_str(alloc, "no such article"),
        PostFault::BadName => String::from_str(alloc, "bad name"),
        PostFault::NameTaken(number) => format!(in alloc; "name taken {number}"),
        PostFault::LongText(length) => format!(in alloc; "long text {length}"),
    }
}

/// Adds a record. Gives what became of it, in words.
pub(crate) fn answer(
    alloc: Global,
    postings: &mut Postings,
    entry: Record,
) -> Result<String, NoMemory> {
    let kind = kind_of(&entry);
    match add(alloc, postings, entry) {
        Ok(number) => Ok(format!(in alloc; "posted {kind} {number}")?),
        Err(Refusal::NoPost) => Ok(String::from_str(alloc, "no post")?),
        Err(Refusal::Fault(fault)) => Ok(fault_text(alloc, fault)?),
        Err(Refusal::Full) => Ok(String::from_str(alloc, "as many posts as may be")?),
        Err(Refusal::NoMemory) => Err(NoMemory),
    }
}
