//! How a command is judged.

ghost use Rattle.std.specs.Prelude.{◌≡◌, ℕ, true, Option, Some, IfOk, IfErr, IfSome, IsTrue, is_some, slice_index_or};
ghost use Rattle.trust_types.specs.declared.levels.Level.{Level as Held};
ghost use Rattle.trust_types.specs.declared.records.Secret.TheVariants.{Absent as Nothing};
ghost use Rattle.trust_types.specs.NameLists.{number_of};
ghost use Rattle.cert_book.specs.Books.{IsAccount, book};
ghost use Rattle.site_history.specs.declared.commands.Command.TheVariants.{Join, Seed, Unseed, Cert, Table, Diary, Article, Reply as ReplyTo, Project, Login};
ghost use Rattle.site_history.specs.Acts.{has_author};
ghost use Rattle.site_history.specs.Answers.{is_refusal};
ghost use Rattle.site_history.specs.Replies.{judged_author, same_account, is_steward, cert_refusal, post_refusal, login_refusal};
ghost use Rattle.sessions.specs.Sessions.{who};
ghost use Rattle.site_state.specs.Weighed.{IsWeighed, IsRuled, IsPosted, is_given};
ghost use Rattle.site_state.specs.inner.Parts.{site_in, AreFew};

use crate::judged::Judged;
use crate::parts::Parts;
use cert_book::CertFault;
use posting_policy::{PostKind, admits, needs};
use postings::PostFault;
use sessions::{LoginFault, Token};
use site_history::{Author, Command, Reply};
use trust_types::{AccountNo, Caps, Level, Name, Record, Secret, Text};

impl Parts {
    /// What becomes of a command, of an author that holds a level. Certificates and posts have an author.
    pub(crate) fn weigh(
        &self,
        held: Level,
        author: Option<AccountNo>,
        command: Command,
        moment: u64,
    ) -> Judged
        requires author { IfSome author (IsAccount (book self.now.certs)) }
        requires given { IsTrue (is_given command author) }
        requires few { AreFew self.now }
        ensures { IsWeighed (site_in self.now) held author moment command result }
    {
        match command {
            Command::Join { name, secret } => self.weigh_join(name, secret, moment),
            Command::Seed { subject } => self.weigh_seed(author, subject, moment),
            Command::Unseed { subject } => self.weigh_unseed(author, subject, moment),
            Command::Cert { subject, level } => match author {
                Some(author) => self.weigh_cert(author, subject, level, moment),
                None => unreachable!(),
            },
            Command::Table { caps } => self.weigh_table(author, caps, moment),
            Command::Diary { text } => match author {
                Some(author) => self.weigh_diary(held, author, text, moment),
                None => unreachable!(),
            },
            Command::Article { title, text } => match author {
                Some(author) => self.weigh_article(held, author, title, text, moment),
                None => unreachable!(),
            },
            Command::Reply { article, text } => match author {
                Some(author) => self.weigh_reply(held, author, article, text, moment),
                None => unreachable!(),
            },
            Command::Project { name, text } => match author {
                Some(author) => self.weigh_project(held, author, name, text, moment),
                None => unreachable!(),
            },
            Command::Login { name, proof, token } => self.weigh_login(name, proof, token),
            Command::Logout => Judged::LogsOut,
        }
    }

    /// The account of that name.
    pub(crate) fn number_of(&self, word: &Text) -> Option<AccountNo>
        ensures number { result ≡ number_of (book self.now.certs).names word.now }
        ensures account { IfSome result (IsAccount (book self.now.certs)) }
    {
        match self.certs.known(word) {
            Ok(account) => Some(account),
            Err(_) => None,
        }
    }

    /// Who an author is.
    pub(crate) fn judge_author(&self, author: &Option<Author>) -> Result<Option<AccountNo>, Reply>
        ensures judged { result ≡ judged_author (site_in self.now) author.now }
        ensures account { IfOk result (λ found. IfSome found (IsAccount (book self.now.certs))) }
        ensures given { IfOk result (λ found. is_some found ≡ has_author author.now) }
        ensures refusal { IfErr result (λ reply. is_refusal reply ≡ true) }
    {
        match author {
            None => Ok(None),
            Some(Author::Named(name)) => match self.number_of(name) {
                Some(account) => Ok(Some(account)),
                None => Err(Reply::NoSuchAuthor),
            },
            Some(Author::Session(name, token)) => self.judge_session(name, token),
        }
    }

    fn judge_session(&self, name: &Text, token: &Token) -> Result<Option<AccountNo>, Reply>
        ensures judged { result ≡ same_account (number_of (book self.now.certs).names name.now) (who self.now.sessions.live token.now) }
        ensures account { IfOk result (λ found. IfSome found (IsAccount (book self.now.certs))) }
        ensures given { IfOk result (λ found. is_some found ≡ true) }
        ensures refusal { IfErr result (λ reply. is_refusal reply ≡ true) }
    {
        let Some(account) = self.number_of(name) else {
            return Err(Reply::NoSession);
        };
        let Some(session) = self.sessions.who(token) else {
            return Err(Reply::NoSession);
        };
        if account.0 == session.0 {
            Ok(Some(account))
        } else {
            Err(Reply::NoSession)
        }
    }

    fn is_steward(&self, author: Option<AccountNo>) -> bool
        requires { IfSome author (IsAccount (book self.now.certs)) }
        ensures { result ≡ is_steward (site_in self.now) author }
    {
        match author {
            None => true,
            Some(account) => self.certs.is_seed(account),
        }
    }

    /// What becomes of a change of seeds or of the table that is accepted but for its author.
    fn ruled(&self, author: Option<AccountNo>, entry: Record) -> Judged
        requires author { IfSome author (IsAccount (book self.now.certs)) }
        requires few { AreFew self.now }
        ensures { IsRuled (site_in self.now) author entry result }
    {
        if self.is_steward(author) {
            Judged::Kept(entry, Reply::Revised(self.certs.revision() + 1))
        } else {
            Judged::Refused(Reply::NotSteward)
        }
    }

    pub(crate) fn weigh_join(&self, name: Text, secret: Secret, moment: u64) -> Judged
        ensures { (held : Held) (author : Option ℕ) → IsWeighed (site_in self.now) held author moment (Join name secret) result }
    {
        match self.certs.judge_join(&name) {
            Err(fault) => Judged::Refused(cert_refusal(fault)),
            Ok(name) => Judged::Kept(
                Record::Join {
                    moment,
                    name,
                    secret,
                },
                Reply::Joined(AccountNo(self.certs.accounts())),
            ),
        }
    }

    pub(crate) fn weigh_seed(&self, author: Option<AccountNo>, subject: Text, moment: u64) -> Judged
        requires author { IfSome author (IsAccount (book self.now.certs)) }
        requires few { AreFew self.now }
        ensures { (held : Held) → IsWeighed (site_in self.now) held author moment (Seed subject) result }
    {
        match self.certs.judge_seed(&subject) {
            Err(fault) => Judged::Refused(cert_refusal(fault)),
            Ok(subject) => self.ruled(author, Record::Seed { moment, subject }),
        }
    }

    pub(crate) fn weigh_unseed(
        &self,
        author: Option<AccountNo>,
        subject: Text,
        moment: u64,
    ) -> Judged
        requires author { IfSome author (IsAccount (book self.now.certs)) }
        requires few { AreFew self.now }
        ensures { (held : Held) → IsWeighed (site_in self.now) held author moment (Unseed subject) result }
    {
        match self.certs.judge_unseed(&subject) {
            Err(fault) => Judged::Refused(cert_refusal(fault)),
            Ok(subject) => self.ruled(author, Record::Unseed { moment, subject }),
        }
    }

    pub(crate) fn weigh_table(&self, author: Option<AccountNo>, caps: Caps, moment: u64) -> Judged
        requires author { IfSome author (IsAccount (book self.now.certs)) }
        requires few { AreFew self.now }
        ensures { (held : Held) → IsWeighed (site_in self.now) held author moment (Table caps) result }
    {
        match self.certs.judge_table(&caps) {
            Err(fault) => Judged::Refused(cert_refusal(fault)),
            Ok(()) => self.ruled(author, Record::Table { moment, caps }),
        }
    }

    pub(crate) fn weigh_cert(
        &self,
        author: AccountNo,
        subject: Text,
        level: Level,
        moment: u64,
    ) -> Judged
        requires author { IsAccount (book self.now.certs) author }
        requires few { AreFew self.now }
        ensures { (held : Held) → IsWeighed (site_in self.now) held (Some author) moment (Cert subject level) result }
    {
        match self.certs.judge_cert(author, &subject, level) {
            Err(fault) => Judged::Refused(cert_refusal(fault)),
            Ok(subject) => Judged::Kept(
                Record::Cert {
                    moment,
                    author,
                    subject,
                    level,
                },
                Reply::Revised(self.certs.revision() + 1),
            ),
        }
    }

    pub(crate) fn weigh_login(&self, name: Text, proof: [u8; 32], token: Token) -> Judged
        ensures { (held : Held) (author : Option ℕ) (moment : ℕ) → IsWeighed (site_in self.now) held author moment (Login name proof token) result }
    {
        let Some(account) = self.number_of(&name) else {
            return Judged::Refused(Reply::NoSuchAccount);
        };
        let kept = secret_at(&self.secrets, account);
        match self.sessions.judge(&kept, &proof, &token) {
            Err(fault) => Judged::Refused(login_refusal(fault)),
            Ok(()) => Judged::LogsIn(account, token),
        }
    }

    pub(crate) fn weigh_diary(
        &self,
        held: Level,
        author: AccountNo,
        text: Text,
        moment: u64,
    ) -> Judged
        requires { IsAccount (book self.now.certs) author }
        ensures { IsWeighed (site_in self.now) held (Some author) moment (Diary text) result }
    {
        let judged = self.posts.judge_diary(&text);
        let number = self.posts.diary_count(author);
        posted(
            judged,
            PostKind::Diary,
            held,
            number,
            Record::Diary {
                moment,
                author,
                text,
            },
        )
    }

    pub(crate) fn weigh_article(
        &self,
        held: Level,
        author: AccountNo,
        title: Text,
        text: Text,
        moment: u64,
    ) -> Judged
        requires { IsAccount (book self.now.certs) author }
        ensures { IsWeighed (site_in self.now) held (Some author) moment (Article title text) result }
    {
        let judged = self.posts.judge_article(&title, &text);
        let number = self.posts.article_count();
        posted(
            judged,
            PostKind::Article,
            held,
            number,
            Record::Article {
                moment,
                author,
                title,
                text,
            },
        )
    }

    pub(crate) fn weigh_reply(
        &self,
        held: Level,
        author: AccountNo,
        article: u32,
        text: Text,
        moment: u64,
    ) -> Judged
        requires { IsAccount (book self.now.certs) author }
        ensures { IsWeighed (site_in self.now) held (Some author) moment (ReplyTo article text) result }
    {
        let judged = self.posts.judge_reply(article, &text);
        let number = self.posts.reply_count(article);
        posted(
            judged,
            PostKind::Reply,
            held,
            number,
            Record::Reply {
                moment,
                author,
                article,
                text,
            },
        )
    }
}

impl Parts {
    pub(crate) fn weigh_project(
        &self,
        held: Level,
        author: AccountNo,
        name: Text,
        text: Text,
        moment: u64,
    ) -> Judged
        requires { IsAccount (book self.now.certs) author }
        ensures { IsWeighed (site_in self.now) held (Some author) moment (Project name text) result }
    {
        let judged = self.posts.judge_project(&name, &text);
        let number = self.posts.project_count();
        let Some(name) = Name::read(name.as_str().as_bytes()) else {
            return Judged::Refused(Reply::BadName);
        };
        posted(
            judged,
            PostKind::Project,
            held,
            number,
            Record::Project {
                moment,
                author,
                name,
                text,
            },
        )
    }
}

/// What is kept of an account's password.
fn secret_at(secrets: &[Secret], account: AccountNo) -> Secret
    ensures { result ≡ slice_index_or secrets.now account Nothing }
{
    match secrets.get(account.index()) {
        Some(secret) => *secret,
        None => Secret::Absent,
    }
}

/// What becomes of a post that was judged, under the number that it gets.
fn posted(
    judged: Result<(), PostFault>,
    kind: PostKind,
    held: Level,
    number: u32,
    entry: Record,
) -> Judged
    ensures { IsPosted judged kind held number entry result }
{
    match judged {
        Err(fault) => Judged::Refused(post_refusal(fault)),
        Ok(()) => {
            if admits(kind, held) {
                Judged::Kept(entry, Reply::Posted(kind, number))
            } else {
                Judged::Refused(Reply::Denied(held, needs(kind)))
            }
        }
    }
}

fn cert_refusal(fault: CertFault) -> Reply
    ensures reply { result ≡ cert_refusal fault }
    ensures refusal { is_refusal result ≡ true }
{
    match fault {
        CertFault::BadName => Reply::BadName,
        CertFault::NameTaken(account) => Reply::NameTaken(account.0),
        CertFault::AccountsFull => Reply::AccountsFull,
        CertFault::NoSuchAccount => Reply::NoSuchAccount,
        CertFault::SelfCert => Reply::SelfCert,
        CertFault::NoSuchLevel(levels) => Reply::NoSuchLevel(levels),
        CertFault::Same => Reply::Same,
        CertFault::CertsFull => Reply::CertsFull,
        CertFault::NotSeed => Reply::NotSeed,
        CertFault::LastSeed => Reply::LastSeed,
        CertFault::LevelsFall(levels) => Reply::LevelsFall(levels),
    }
}

fn post_refusal(fault: PostFault) -> Reply
    ensures reply { result ≡ post_refusal fault }
    ensures refusal { is_refusal result ≡ true }
{
    match fault {
        PostFault::NoSuchArticle => Reply::NoSuchArticle,
        PostFault::BadName => Reply::BadName,
        PostFault::NameTaken(number) => Reply::NameTaken(number),
        PostFault::LongText(length) => Reply::LongText(length),
    }
}

fn login_refusal(fault: LoginFault) -> Reply
    ensures reply { result ≡ login_refusal fault }
    ensures refusal { is_refusal result ≡ true }
{
    match fault {
        LoginFault::WrongPassword => Reply::WrongPassword,
        LoginFault::TokenTaken => Reply::TokenTaken,
        LoginFault::SessionsFull => Reply::SessionsFull,
    }
}
