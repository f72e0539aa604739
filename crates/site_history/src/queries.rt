use trust_types::Text;

/// What is asked to be shown of a site.
#[derive(Drop)]
pub enum Query {
    /// The newest articles.
    Front,
    /// The account of this name, with its certificates.
    Person(Text),
    /// The newest entries of this account's diary.
    Diary(Text),
    /// The article of this number, with its replies.
    Article(u32),
    /// The project of this name.
    Project(Text),
    /// The table in force, and the seeds.
    Stewards,
}
