//! The scenes.

ghost use Rattle.std.specs.Prelude.{◌≡◌};

use crate::acts::act_of;
use crate::large::{Draws, take_large};
use crate::loads::load;
use crate::meetings::{levels_at_once, read_on, work_beside};
use crate::rounds::rounds_beside;
use crate::steps::take_step;
use anyhow::{Result, bail};
use outside::MemKeeper;
use site_core::Book;
use site_history::Act;
use std::alloc::{AllocError, Global};
use std::sync::Wait;
use std::thread::{Threads, join};
use std::time::Clock;
use trust_types::Caps;
use turn_book::{Seat, Site};

/// A site with two seats.
#[derive(Drop)]
struct Scene {
    site: Site<MemKeeper>,
    first: Seat<MemKeeper>,
    second: Seat<MemKeeper>,
    ghost first_here: { first.site ≡ site.table.shared.table_id },
    ghost second_here: { second.site ≡ site.table.shared.table_id },
}

impl Scene {
    /// A site in which nothing is kept yet.
    fn open(alloc: Global) -> Result<Scene> {
        let Ok(caps) = Caps::read(&[3, 2, 1]) else {
            bail!("no table")
        };
        let keeper = MemKeeper::new(alloc, Vec::new(alloc), Vec::new(alloc));
        let Ok(book) = Book::open(alloc, keeper, caps) else {
            bail!("no book")
        };
        let (site, mut first) = Site::open(alloc, book)?;
        match site.split(&mut first) {
            Ok(second) => Ok(Scene {
                site,
                first,
                second,
            }),
            Err(_) => bail!("no second seat"),
        }
    }

    /// Takes a step: one of seat 1 in this thread, one of seat 2 in another.
    fn take<R: Threads + Wait + Sync + Clock>(
        self,
        rt: &R,
        alloc: Global,
        step: &str,
    ) -> Result<(Scene, String)> {
        if step == "levels" {
            return self.levels(rt, alloc);
        }
        if let Some(words) = step.strip_prefix("load ") {
            return self.load(rt, alloc, words);
        }
        if let Some(words) = step.strip_prefix("rounds beside ") {
            return self.rounds(rt, alloc, words);
        }
        if let Some(words) = step.strip_prefix("large ") {
            return self.large(rt, alloc, words);
        }
        if let Some(words) = step.strip_prefix("reader, while ") {
            return self.read(rt, alloc, act_of(alloc, words)?);
        }
        if let Some(words) = step.strip_prefix("worker, while ") {
            return self.work(rt, alloc, act_of(alloc, words)?);
        }
        let Some((number, step)) = step.split_once(": ") else {
            bail!("a step begins with a seat")
        };
        if number == "1" {
            self.here(rt, alloc, step)
        } else {
            self.apart(rt, alloc, step)
        }
    }

    fn here<R: Wait>(self, rt: &R, alloc: Global, step: &str) -> Result<(Scene, String)> {
        let Scene {
            site,
            first,
            second,
        } = self;
        let (first, answer) = with_seat(rt, alloc, &site, first, step);
        let scene = Scene {
            site,
            first,
            second,
        };
        match answer {
            Some(answer) => Ok((scene, answer)),
            None => bail!("a step of seat 1 failed"),
        }
    }

    /// Takes a step in a thread of its own, to which seat 2 goes.
    fn apart<R: Threads + Wait + Sync>(
        self,
        rt: &R,
        alloc: Global,
        step: &str,
    ) -> Result<(Scene, String)> {
        let Scene {
            site,
            first,
            second,
        } = self;
        let shared = &site;
        let ((second, answer), ()) = join(
            rt,
            move || -> (Seat<MemKeeper>, Option<String>)
                requires { second.site ≡ shared.now.table.shared.table_id }
                ensures { result.0.site ≡ second.site }
            { with_seat(rt, alloc, shared, second, step) },
            || {},
        );
        let scene = Scene {
            site,
            first,
            second,
        };
        match answer {
            Some(answer) => Ok((scene, answer)),
            None => bail!("a step of seat 2 failed"),
        }
    }

    /// Seat 2 reads, and seat 1 publishes meanwhile.
    fn read<R: Wait>(self, rt: &R, alloc: Global, act: Act) -> Result<(Scene, String)> {
        let Scene {
            site,
            mut first,
            mut second,
        } = self;
        let answer = read_on(rt, alloc, &site, &mut first, &mut second, act)?;
        Ok((
            Scene {
                site,
                first,
                second,
            },
            answer,
        ))
    }

    /// A worker has seat 1, and seat 2 submits meanwhile.
    fn work<R: Threads + Wait + Sync>(
        self,
        rt: &R,
        alloc: Global,
        act: Act,
    ) -> Result<(Scene, String)> {
        let Scene {
            site,
            first,
            second,
        } = self;
        let (mut first, second, worked) = work_beside(rt, alloc, &site, first, second, act);
        let answer = worked.told(rt, alloc, &site, &mut first)?;
        Ok((
            Scene {
                site,
                first,
                second,
            },
            answer,
        ))
    }

    fn levels<R: Threads + Wait + Sync>(self, rt: &R, alloc: Global) -> Result<(Scene, String)> {
        let Scene {
            site,
            mut first,
            second,
        } = self;
        let answer = levels_at_once(rt, alloc, &site, &mut first)?;
        Ok((
            Scene {
                site,
                first,
                second,
            },
            answer,
        ))
    }

    /// Many acts through seat 1.
    fn load<R: Threads + Wait + Sync>(
        self,
        rt: &R,
        alloc: Global,
        words: &str,
    ) -> Result<(Scene, String)> {
        let Some((numbers, act)) = words.split_once(": ") else {
            bail!("a load has an act")
        };
        let Some((count, readers)) = numbers.split_once(" beside ") else {
            bail!("a load has two numbers")
        };
        let count = count.parse()?;
        let readers = readers.parse()?;
        let Scene {
            site,
            first,
            second,
        } = self;
        let (first, replies) = load(rt, alloc, &site, first, readers, count, act);
        let scene = Scene {
            site,
            first,
            second,
        };
        match replies {
            Some(replies) => Ok((scene, format!(in alloc; "{replies} replies")?)),
            None => bail!("a load failed"),
        }
    }

    /// A worker's rounds through seat 1, and certificates through seat 2.
    fn rounds<R: Threads + Wait + Sync + Clock>(
        self,
        rt: &R,
        alloc: Global,
        words: &str,
    ) -> Result<(Scene, String)> {
        let Some((accounts, count)) = words.split_once(' ') else {
            bail!("rounds have accounts and certificates")
        };
        let draws = Draws::of(2, accounts.parse()?);
        let count = count.parse()?;
        let Scene {
            site,
            first,
            second,
        } = self;
        let (first, second, measured) = rounds_beside(
            rt, alloc, &site, first, second, draws, count,
        );
        let answer = measured.told(alloc)?;
        Ok((
            Scene {
                site,
                first,
                second,
            },
            answer,
        ))
    }

    /// A step through seat 1 of a site that is large.
    fn large<R: Threads + Wait + Sync>(
        self,
        rt: &R,
        alloc: Global,
        step: &str,
    ) -> Result<(Scene, String)> {
        let Scene {
            site,
            mut first,
            second,
        } = self;
        let answer = take_large(rt, alloc, &site, &mut first, step)?;
        Ok((
            Scene {
                site,
                first,
                second,
            },
            answer,
        ))
    }

    /// Closes the site with seat 1.
    fn close(self, alloc: Global) -> Result<String, AllocError> {
        let Scene {
            site,
            first,
            second: _,
        } = self;
        match site.close(first) {
            Ok(book) => format!(in alloc;
                "a book of {} entries, {} of them publications",
                book.length(),
                book.published()
            ),
            Err(away) => format!(in alloc; "{away}"),
        }
    }
}

/// Takes a step through a seat, and hands the seat back; with no answer where the step failed.
fn with_seat<R: Wait>(
    rt: &R,
    alloc: Global,
    site: &Site<MemKeeper>,
    mut seat: Seat<MemKeeper>,
    step: &str,
) -> (Seat<MemKeeper>, Option<String>)
    requires { seat.site ≡ site.now.table.shared.table_id }
    ensures { result.0.site ≡ seat.site }
{
    let answer = take_step(rt, alloc, site, &mut seat, step).ok();
    (seat, answer)
}

/// Adds a step, and under it its answer.
fn add_answer(shown: &mut String, step: &str, answer: &str) -> Result<(), AllocError> {
    shown.push_str(step)?;
    shown.push_str("\n    ")?;
    shown.push_str(answer)?;
    shown.push('\n')
}

/// A scene with the answers to its steps.
pub(crate) fn played<R: Threads + Wait + Sync + Clock>(
    rt: &R,
    alloc: Global,
    text: &str,
) -> Result<String> {
    let mut shown = String::new(alloc);
    let mut scene = Scene::open(alloc)?;
    for step in text.lines() {
        if step == "close" {
            let answer = scene.close(alloc)?;
            add_answer(&mut shown, step, answer.as_str())?;
            return Ok(shown);
        }
        if shown.is_empty() {
            shown.push_str(step)?;
            shown.push('\n')?;
        } else {
            let (next, answer) = scene.take(rt, alloc, step)?;
            scene = next;
            add_answer(&mut shown, step, answer.as_str())?;
        }
    }
    Ok(shown)
}
