//! What the paths of a site name. A router of `matchit` looks them up.
#![tactic(auto)]

ghost use Rattle.std.specs.Prelude.{◌≡◌, IfOk, OnOk};
ghost use Rattle.http_paths.specs.Places.{named_in, pages, actions};
ghost use Rattle.http_paths.specs.inner.Tables.{with_route, page_table, action_table, first_pages, first_actions, page_at, action_at};

use matchit::{InsertError, Router};
use std::alloc::Global;
use std::marker::Model;
use trust_types::NoMemory;

/// A page that a GET asks for.
#[derive(Clone, Copy, Debug, PartialEq, Eq)]
pub enum Page {
    Front,
    Account,
    Stewards,
    Person,
    Diary,
    Project,
    Article,
    Roster,
    Proof,
}

/// What a POST asks to do.
#[derive(Clone, Copy, Debug, PartialEq, Eq)]
pub enum Action {
    Join,
    Login,
    Logout,
    Cert,
    Diary,
    Article,
    Reply,
    Project,
    Seed,
    Unseed,
    Table,
}

fn add_page(router: &mut Router<Page>, path: &str, page: Page) -> Result<(), InsertError>
    ensures { OnOk result (router.new ≡ with_route path.now page router.old) }
{
    router.insert(path, page)
}

fn add_action(router: &mut Router<Action>, path: &str, action: Action) -> Result<(), InsertError>
    ensures { OnOk result (router.new ≡ with_route path.now action router.old) }
{
    router.insert(path, action)
}

/// The pages. It takes memory for them.
fn page_router(alloc: Global) -> Result<Router<Page>, InsertError>
    ensures { IfOk result (λ router. router ≡ page_table) }
{
    let mut router = Router::new(alloc);
    add_first_pages(&mut router)?;
    add_page(&mut router, "/diary/{of}", Page::Diary)?;
    add_page(&mut router, "/project/{of}", Page::Project)?;
    add_page(&mut router, "/article/{of}", Page::Article)?;
    add_page(&mut router, "/roster/{of}", Page::Roster)?;
    add_page(&mut router, "/proof/{of}", Page::Proof)?;
    Ok(router)
}

fn add_first_pages(router: &mut Router<Page>) -> Result<(), InsertError>
    ensures { OnOk result (router.new ≡ first_pages router.old) }
{
    add_page(router, "/", Page::Front)?;
    add_page(router, "/account", Page::Account)?;
    add_page(router, "/stewards", Page::Stewards)?;
    add_page(router, "/person/{of}", Page::Person)?;
    Ok(())
}

/// The actions. It takes memory for them.
fn action_router(alloc: Global) -> Result<Router<Action>, InsertError>
    ensures { IfOk result (λ router. router ≡ action_table) }
{
    let mut router = Router::new(alloc);
    add_first_actions(&mut router)?;
    add_action(&mut router, "/article", Action::Article)?;
    add_action(&mut router, "/reply", Action::Reply)?;
    add_action(&mut router, "/project", Action::Project)?;
    add_action(&mut router, "/seed", Action::Seed)?;
    add_action(&mut router, "/unseed", Action::Unseed)?;
    add_action(&mut router, "/table", Action::Table)?;
    Ok(router)
}

fn add_first_actions(router: &mut Router<Action>) -> Result<(), InsertError>
    ensures { OnOk result (router.new ≡ first_actions router.old) }
{
    add_action(router, "/join", Action::Join)?;
    add_action(router, "/login", Action::Login)?;
    add_action(router, "/logout", Action::Logout)?;
    add_action(router, "/cert", Action::Cert)?;
    add_action(router, "/diary", Action::Diary)?;
    Ok(())
}

/// The paths of a site. Once it is made any number of look-ups take no memory. Contracts see nothing of it: what a path names is fixed.
#[derive(Drop)]
pub struct Paths {
    pages: Router<Page>,
    actions: Router<Action>,
}

impl Model for Paths {
    ghost use Rattle.std.specs.Prelude.{◌≡◌};
    ghost use Rattle.http_paths.specs.inner.Tables.{page_table, action_table};

    ghost Value = { Unit {0} };

    ghost view = { λ paths. tt };

    ghost invariant = { λ paths. (paths.pages ≡ page_table) × (paths.actions ≡ action_table) };
}

impl Paths {
    /// Makes the routers.
    ///
    /// # Errors
    /// [`NoMemory`] where there isn't enough for them.
    pub fn new(alloc: Global) -> Result<Paths, NoMemory> {
        let Ok(pages) = page_router(alloc) else {
            return Err(NoMemory);
        };
        let Ok(actions) = action_router(alloc) else {
            return Err(NoMemory);
        };
        Ok(Paths { pages, actions })
    }

    /// The page at a path; `None` where there is none.
    pub fn page(&self, path: &str) -> Option<Page>
        ensures { result ≡ named_in pages path.now }
    {
        page_named(&self.pages, path)
    }

    /// The action at a path; `None` where there is none.
    pub fn action(&self, path: &str) -> Option<Action>
        ensures { result ≡ named_in actions path.now }
    {
        action_named(&self.actions, path)
    }
}

fn page_named(router: &Router<Page>, path: &str) -> Option<Page>
    requires { router.now ≡ page_table }
    ensures { result ≡ named_in pages path.now }
{
    page_in(router, path)
}

fn page_in(router: &Router<Page>, path: &str) -> Option<Page>
    requires { router.now ≡ page_table }
    ensures { result ≡ page_at path.now }
{
    match router.at(path) {
        Ok(found) => Some(*found.value),
        Err(_) => None,
    }
}

fn action_named(router: &Router<Action>, path: &str) -> Option<Action>
    requires { router.now ≡ action_table }
    ensures { result ≡ named_in actions path.now }
{
    action_in(router, path)
}

fn action_in(router: &Router<Action>, path: &str) -> Option<Action>
    requires { router.now ≡ action_table }
    ensures { result ≡ action_at path.now }
{
    match router.at(path) {
        Ok(found) => Some(*found.value),
        Err(_) => None,
    }
}
