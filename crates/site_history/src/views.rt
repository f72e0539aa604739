use trust_types::{Caps, Level, Name, Text};

/// What is shown of a site.
#[derive(Drop)]
pub enum View {
    /// The newest 20 articles, newest first.
    Front(Vec<ArticleHead>),
    Person(PersonView),
    Diary(DiaryView),
    Article(ArticleView),
    Project(ProjectView),
    Stewards(StewardsView),
    /// Nothing has that name or number.
    Missing,
}

/// An article, without its text.
#[derive(Drop)]
pub struct ArticleHead {
    pub no: u32,
    pub title: Text,
    pub author: Name,
}

/// An account: the level that it holds, and the first 200 certificates that it gives and takes, by account number.
#[derive(Drop)]
pub struct PersonView {
    pub name: Name,
    pub level: Level,
    pub given: Vec<(Name, Level)>,
    pub taken: Vec<(Name, Level)>,
}

/// A post.
#[derive(Drop)]
pub struct PostView {
    pub author: Name,
    pub moment: u64,
    pub text: Text,
}

/// A diary: its newest 20 entries, newest first.
#[derive(Drop)]
pub struct DiaryView {
    pub name: Name,
    pub posts: Vec<PostView>,
}

/// An article, and the first 200 replies to it.
#[derive(Drop)]
pub struct ArticleView {
    pub no: u32,
    pub title: Text,
    pub post: PostView,
    pub replies: Vec<PostView>,
}

/// A project.
#[derive(Drop)]
pub struct ProjectView {
    pub name: Name,
    pub post: PostView,
}

/// The table in force, and the first 200 seeds by account number.
#[derive(Drop)]
pub struct StewardsView {
    pub caps: Caps,
    pub seeds: Vec<Name>,
}
