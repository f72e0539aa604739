//! Many acts at once.

use crate::acts::{Unread, act_of, told};
use crate::site::Site;
use crate::steps::Load;
use site_history::{Act, Answer, Author, Command, Refusal};
use std::alloc::Global;
use std::sync::ledger::Ledger;
use trust_types::{Level, NoMemory, Secret, Steps, Text};

/// Answers the same act so many times. Gives the last answer.
fn submit_often(alloc: Global, site: &mut Site, count: u32, words: &str) -> Result<Answer, Unread> {
    let mut answer = Err(Refusal::NoMemory);
    for _ in 0..count {
        answer = site.submit(act_of(alloc, words)?);
    }
    Ok(answer)
}

fn times(alloc: Global, site: &mut Site, count: u32, words: &str) -> Result<String, NoMemory> {
    match submit_often(alloc, site, count, words) {
        Ok(answer) => Ok(told(alloc, &answer)?),
        Err(Unread::NoAct) => Ok(String::from_str(alloc, "no such act")?),
        Err(Unread::NoMemory) => Err(NoMemory),
    }
}

/// The names that these letters and a number each make.
fn names_of(alloc: Global, letters: &str, count: u32) -> Result<Vec<Text>, NoMemory> {
    let mut names = Vec::with_capacity(alloc, count as usize)?;
    for number in 0..count {
        names.push(Text::from_string(format!(in alloc; "{letters}{number}")?))?;
    }
    Ok(names)
}

fn join(site: &mut Site, name: Text) -> Option<Answer> {
    let act = Act::of(
        None,
        Command::Join {
            name,
            secret: Secret::Absent,
        },
    )?;
    Some(site.submit(act))
}

fn is_reply(answer: Option<Answer>) -> bool {
    match answer {
        Some(Ok(_)) => true,
        Some(Err(_)) => false,
        None => false,
    }
}

/// So many accounts join. Gives how many of them were replied to.
fn crowd(alloc: Global, site: &mut Site, count: u32, letters: &str) -> Result<u32, NoMemory> {
    let mut replies: u32 = 0;
    for name in names_of(alloc, letters, count)? {
        if is_reply(join(site, name)) {
            replies = replies.saturating_add(1);
        }
    }
    Ok(replies)
}

/// The next of a list of numbers without an order, by Knuth's multiplier.
fn next(number: u64) -> u64 {
    number
        .wrapping_mul(6_364_136_223_846_793_005)
        .wrapping_add(1_442_695_040_888_963_407)
}

/// One of the names, by a random number's upper bits.
fn name_by(alloc: Global, names: &[Text], random: u64) -> Result<Text, NoMemory> {
    match names.get((random >> 33) as usize % names.len().max(1)) {
        Some(name) => name.copy(alloc),
        None => Text::of(alloc, ""),
    }
}

/// The act by which one of the accounts certifies another.
fn cert_act(giver: Text, taker: Text) -> Option<Act> {
    Act::of(
        Some(Author::Named(giver)),
        Command::Cert {
            subject: taker,
            level: Level::Journeyer,
        },
    )
}

/// One of the accounts certifies another.
fn certify(site: &mut Site, giver: Text, taker: Text) -> Option<Answer> {
    Some(site.submit(cert_act(giver, taker)?))
}

/// The acts of so many certificates at random are made, and none is submitted. Gives how many there were.
fn draft_many(alloc: Global, count: u32, names: &[Text]) -> Result<u32, NoMemory> {
    let mut drafts: u32 = 0;
    let mut giver: u64 = 1;
    for _ in 0..count {
        let taker = next(giver);
        let act = cert_act(name_by(alloc, names, giver)?, name_by(alloc, names, taker)?);
        if act.is_some() {
            drafts = drafts.saturating_add(1);
        }
        giver = next(taker);
    }
    Ok(drafts)
}

/// So many certificates are given at random. Gives how many of them were replied to.
fn certify_many(
    alloc: Global,
    site: &mut Site,
    count: u32,
    names: &[Text],
) -> Result<u32, NoMemory> {
    let mut replies: u32 = 0;
    let mut giver: u64 = 1;
    for _ in 0..count {
        let taker = next(giver);
        let answer = certify(
            site,
            name_by(alloc, names, giver)?,
            name_by(alloc, names, taker)?,
        );
        if is_reply(answer) {
            replies = replies.saturating_add(1);
        }
        giver = next(taker);
    }
    Ok(replies)
}

/// The same, and the graph is frozen before each. Gives how often both were done.
fn freeze_many<L: Ledger>(
    alloc: Global,
    site: &mut Site,
    count: u32,
    names: &[Text],
    steps: &mut Steps<L>,
) -> Result<u32, NoMemory> {
    let mut done: u32 = 0;
    let mut giver: u64 = 3;
    for _ in 0..count {
        let taker = next(giver);
        let is_frozen = site.freeze(steps).is_ok();
        let answer = certify(
            site,
            name_by(alloc, names, giver)?,
            name_by(alloc, names, taker)?,
        );
        if is_frozen && is_reply(answer) {
            done = done.saturating_add(1);
        }
        giver = next(taker);
    }
    Ok(done)
}

/// Does many acts. Gives how many were replied to, in words.
pub(crate) fn load<L: Ledger>(
    alloc: Global,
    site: &mut Site,
    load: Load<'_>,
    steps: &mut Steps<L>,
) -> Result<String, NoMemory> {
    let replies = match load {
        Load::Times(count, words) => return times(alloc, site, count, words),
        Load::Crowd(count, letters) => crowd(alloc, site, count, letters)?,
        Load::Certs(count, letters, accounts) => {
            certify_many(alloc, site, count, &names_of(alloc, letters, accounts)?)?
        }
        Load::Drafts(count, letters, accounts) => {
            let drafts = draft_many(alloc, count, &names_of(alloc, letters, accounts)?)?;
            return Ok(format!(in alloc; "{drafts} drafts")?);
        }
        Load::Freezes(count, letters, accounts) => {
            freeze_many(
                alloc,
                site,
                count,
                &names_of(alloc, letters, accounts)?,
                steps,
            )?
        }
    };
    Ok(format!(in alloc; "{replies} replies")?)
}
