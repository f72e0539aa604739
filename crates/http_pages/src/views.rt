//! The pages that show something of a site.

ghost use Rattle.std.specs.Prelude.{ℕ, List, ◌≡◌, ◌<◌, All, IfOk};
ghost use Rattle.std.specs.List.{flat_map};
ghost use Rattle.markup.specs.Cleaning.{cleaned};
ghost use Rattle.site_history.specs.Views.{Article, said, Front, OfPerson, OfDiary, OfArticle, OfProject, OfStewards, Missing};
ghost use Rattle.html_pages.specs.Dates.{NO_DATE};
ghost use Rattle.http_pages.specs.Responses.{bytes_of};
ghost use Rattle.http_pages.specs.Views.{IsDated, AreDated, headline_of, view_response};
ghost use Rattle.html_pages.specs.Shown.{headline};
ghost use Rattle.http_pages.specs.inner.Cleaned.{clean_lines, cleaned_lines};

use crate::responses::{failed, found};
use html_pages::{Body, CleanPost, Headline};
use http_requests::Request;
use markup::{clean, escape};
use site_history::{
    ArticleHead, ArticleView, DiaryView, PersonView, PostView, ProjectView, StewardsView, View,
};
use std::alloc::Global;
use trust_types::NoMemory;

/// The response to a request for a view of the site: its page, or 404 where nothing has the name or number. Titles are escaped and texts cleaned,
/// each once, into memory of its own; the response is written once, into memory of its length. As the request has it, the link is to be closed,
/// and the body isn't sent.
///
/// # Errors
/// [`NoMemory`] where there isn't enough for the response and the texts.
pub fn view_page(
    alloc: Global,
    request: &Request,
    view: &View,
    moment: u64,
) -> Result<Vec<u8>, NoMemory>
    requires moment { moment < NO_DATE }
    requires dated { AreDated (said view.now) }
    ensures { IfOk result (λ bytes. bytes.items ≡ bytes_of (view_response (said view.now)) request.now.close request.now.bare moment) }
{
    match view {
        View::Front(heads) => front(alloc, request, heads, moment),
        View::Person(view) => person(alloc, request, view, moment),
        View::Diary(view) => diary(alloc, request, view, moment),
        View::Article(view) => article(alloc, request, view, moment),
        View::Project(view) => project(alloc, request, view, moment),
        View::Stewards(view) => stewards(alloc, request, view, moment),
        View::Missing => failed(alloc, request, 404, "not found", moment),
    }
}

fn front(
    alloc: Global,
    request: &Request,
    heads: &[ArticleHead],
    moment: u64,
) -> Result<Vec<u8>, NoMemory>
    requires { moment < NO_DATE }
    ensures { IfOk result (λ bytes. bytes.items ≡ bytes_of (view_response (Front heads.now)) request.now.close request.now.bare moment) }
{
    let articles = escape_heads(alloc, heads)?;
    found(alloc, request, &Body::Front(&articles), moment)
}

fn person(
    alloc: Global,
    request: &Request,
    view: &PersonView,
    moment: u64,
) -> Result<Vec<u8>, NoMemory>
    requires { moment < NO_DATE }
    ensures { IfOk result (λ bytes. bytes.items ≡ bytes_of (view_response (said (View.Person view.now))) request.now.close request.now.bare moment) }
{
    let body = Body::Person {
        name: &view.name,
        level: view.level,
        given: &view.given,
        taken: &view.taken,
    };
    found(alloc, request, &body, moment)
}

fn diary(
    alloc: Global,
    request: &Request,
    view: &DiaryView,
    moment: u64,
) -> Result<Vec<u8>, NoMemory>
    requires moment { moment < NO_DATE }
    requires dated { All IsDated view.now.posts.items }
    ensures { IfOk result (λ bytes. bytes.items ≡ bytes_of (view_response (said (View.Diary view.now))) request.now.close request.now.bare moment) }
{
    let posts = clean_posts(alloc, &view.posts)?;
    let body = Body::Diary {
        name: &view.name,
        posts: &posts,
    };
    found(alloc, request, &body, moment)
}

fn article(
    alloc: Global,
    request: &Request,
    view: &ArticleView,
    moment: u64,
) -> Result<Vec<u8>, NoMemory>
    requires moment { moment < NO_DATE }
    requires post { IsDated view.now.post }
    requires replies { All IsDated view.now.replies.items }
    ensures { IfOk result (λ bytes. bytes.items ≡ bytes_of (view_response (said (View.Article view.now))) request.now.close request.now.bare moment) }
{
    let title = escape(alloc, view.title.as_str())?;
    let post = clean_post(alloc, &view.post)?;
    let replies = clean_posts(alloc, &view.replies)?;
    let body = Body::Article {
        title: &title,
        post: &post,
        replies: &replies,
    };
    found(alloc, request, &body, moment)
}

fn project(
    alloc: Global,
    request: &Request,
    view: &ProjectView,
    moment: u64,
) -> Result<Vec<u8>, NoMemory>
    requires moment { moment < NO_DATE }
    requires dated { IsDated view.now.post }
    ensures { IfOk result (λ bytes. bytes.items ≡ bytes_of (view_response (said (View.Project view.now))) request.now.close request.now.bare moment) }
{
    let post = clean_post(alloc, &view.post)?;
    let body = Body::Project {
        name: &view.name,
        post: &post,
    };
    found(alloc, request, &body, moment)
}

fn stewards(
    alloc: Global,
    request: &Request,
    view: &StewardsView,
    moment: u64,
) -> Result<Vec<u8>, NoMemory>
    requires { moment < NO_DATE }
    ensures { IfOk result (λ bytes. bytes.items ≡ bytes_of (view_response (said (View.Stewards view.now))) request.now.close request.now.bare moment) }
{
    let body = Body::Stewards {
        caps: &view.caps,
        seeds: &view.seeds,
    };
    found(alloc, request, &body, moment)
}

/// An article of the front page, its title escaped.
#[tactic(auto, unfolding(html_pages::specs::Shown::headline, crate::specs::Views::headline_of))]
fn escape_head(alloc: Global, head: &ArticleHead) -> Result<Headline, NoMemory>
    ensures { IfOk result (λ article. headline article ≡ headline_of head.now) }
{
    Ok(Headline {
        number: head.no,
        title: escape(alloc, head.title.as_str())?,
        author: head.author,
    })
}

fn escape_heads(alloc: Global, heads: &[ArticleHead]) -> Result<Vec<Headline>, NoMemory>
    ensures { IfOk result (λ articles. flat_map headline articles.items ≡ flat_map headline_of heads.now) }
{
    let mut articles = Vec::with_capacity(alloc, heads.len())?;
    for head in heads {
        articles.push(escape_head(alloc, head)?)?;
    }
    Ok(articles)
}

/// A post, its text cleaned.
fn clean_post(alloc: Global, post: &PostView) -> Result<CleanPost, NoMemory>
    requires { IsDated post.now }
    ensures author { IfOk result (λ clean. clean.author ≡ post.now.author) }
    ensures moment { IfOk result (λ clean. clean.moment ≡ post.now.moment) }
    ensures html { IfOk result (λ clean. clean.html ≡ cleaned post.now.text) }
{
    Ok(CleanPost {
        author: post.author,
        moment: post.moment,
        html: clean(alloc, post.text.as_str())?,
    })
}

fn clean_posts(alloc: Global, posts: &[PostView]) -> Result<Vec<CleanPost>, NoMemory>
    requires { All IsDated posts.now }
    ensures { (lines : List ℕ → ℕ → List ℕ → List ℕ) → IfOk result (λ clean. clean_lines lines clean.items ≡ cleaned_lines lines posts.now) }
{
    let mut clean = Vec::with_capacity(alloc, posts.len())?;
    for post in posts {
        clean.push(clean_post(alloc, post)?)?;
    }
    Ok(clean)
}
