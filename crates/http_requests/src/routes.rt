use trust_types::{Caps, Level, Text};

/// What a request asks for: a page (GET, HEAD), an action (POST), or none of these. A name is any text: whether it is one of an account isn't
/// asked here.
#[derive(Debug, Drop)]
pub enum Route {
    Front,
    /// The forms to join and to log in.
    Account,
    /// The seeds and the table of the site.
    Stewards,
    PersonOf(Text),
    DiaryOf(Text),
    ProjectOf(Text),
    ArticleOf(u32),
    /// Of a grade.
    RosterOf(Level),
    /// Of a grade.
    ProofOf(Level),
    Join { name: Text, password: Text },
    Login { name: Text, password: Text },
    Logout,
    Cert { subject: Text, level: Level },
    Diary { text: Text },
    Article { title: Text, text: Text },
    Reply { article: u32, text: Text },
    Project { name: Text, text: Text },
    Seed { subject: Text },
    Unseed { subject: Text },
    Table { caps: Caps },
    /// The path is no route of the method.
    NotFound,
    /// The method is none of GET, HEAD and POST.
    NotImplemented,
    /// A field of the form is missing, or isn't of its form.
    BadForm,
}

impl Route {
    ghost use Rattle.std.specs.Prelude.{◌≡◌};
    ghost use Rattle.http_requests.specs.Refusals.{needs_session, unmet};

    /// Whether only a session may ask for it.
    pub fn needs_session(&self) -> bool
        ensures { result ≡ needs_session self.now }
    {
        matches!(
            self,
            Route::Logout
                | Route::Cert { .. }
                | Route::Diary { .. }
                | Route::Article { .. }
                | Route::Reply { .. }
                | Route::Project { .. }
                | Route::Seed { .. }
                | Route::Unseed { .. }
                | Route::Table { .. }
        )
    }

    /// The status of what asks for nothing: 501, 404 or 400.
    pub(crate) fn unmet(&self) -> Option<u16>
        ensures { result ≡ unmet self.now }
    {
        match self {
            Route::NotImplemented => Some(501),
            Route::NotFound => Some(404),
            Route::BadForm => Some(400),
            _ => None,
        }
    }
}
