//! Many acts through one seat, alone or beside readers.

ghost use Rattle.std.specs.Prelude.{◌≡◌};
ghost use Rattle.std.specs.Thread.{IsSync};

use crate::acts::act_of;
use crate::steps::submit;
use anyhow::Result;
use outside::{Keeper, MemKeeper};
use std::alloc::Global;
use std::sync::{Mutex, Wait};
use std::thread::{Threads, join};
use turn_book::{Seat, Site};

/// How many looks a reader takes before it asks whether it is to end.
const LOOKS_AT_ONCE: u32 = 1_000;

/// The same act so many times. Gives how many were replied to.
fn submit_often<K: Keeper, R: Wait>(
    rt: &R,
    alloc: Global,
    site: &Site<K>,
    seat: &mut Seat<K>,
    count: u32,
    words: &str,
) -> Result<u32>
    requires { seat.old.site ≡ site.now.table.shared.table_id }
    ensures { seat.new.site ≡ seat.old.site }
{
    let mut replies: u32 = 0;
    for _sent in 0..count {
        if submit(rt, site, seat, act_of(alloc, words)?).is_ok() {
            replies = replies.saturating_add(1);
        }
    }
    Ok(replies)
}

/// Looks at the news a thousand times.
fn look_often<K: Keeper>(site: &Site<K>, seat: &mut Seat<K>)
    requires { seat.old.site ≡ site.now.table.shared.table_id }
    ensures { seat.new.site ≡ seat.old.site }
{
    for _look in 0..LOOKS_AT_ONCE {
        site.news(seat);
    }
}

/// A reader, who looks until it is to end.
fn watch<R: Wait>(rt: &R, site: &Site<MemKeeper>, mut seat: Seat<MemKeeper>, is_over: &Mutex<bool>)
    requires { seat.site ≡ site.now.table.shared.table_id }
{
    for _ in rt.forever() {
        look_often(site, &mut seat);
        if *is_over.lock(rt) {
            return;
        }
    }
}

/// So many readers, each in a thread of its own with a seat split off this one.
fn watch_all<R: Threads + Wait + Sync>(
    rt: &R,
    site: &Site<MemKeeper>,
    mut seat: Seat<MemKeeper>,
    readers: u32,
    is_over: &Mutex<bool>,
)
    requires sync { IsSync R.row }
    requires site { seat.site ≡ site.now.table.shared.table_id }
{
    if readers < 2 {
        return watch(rt, site, seat, is_over);
    }
    let others = readers - 1;
    let Ok(other) = site.split(&mut seat) else {
        return;
    };
    join(
        rt,
        move ||
            requires { IsSync R.row × (other.site ≡ site.now.table.shared.table_id) }
        { watch_all(rt, site, other, others, is_over) },
        move ||
            requires { seat.site ≡ site.now.table.shared.table_id }
        { watch(rt, site, seat, is_over) },
    );
}

/// Submits the same act so many times, and then says that it is over.
fn submit_and_end<R: Wait>(
    rt: &R,
    alloc: Global,
    site: &Site<MemKeeper>,
    mut seat: Seat<MemKeeper>,
    count: u32,
    words: &str,
    is_over: &Mutex<bool>,
) -> (Seat<MemKeeper>, Option<u32>)
    requires { seat.site ≡ site.now.table.shared.table_id }
    ensures { result.0.site ≡ seat.site }
{
    let replies = submit_often(rt, alloc, site, &mut seat, count, words).ok();
    *is_over.lock(rt) = true;
    (seat, replies)
}

/// Submits the same act so many times through a seat, while so many readers look at the news. Gives the seat back, and how many were replied to.
fn load_beside<R: Threads + Wait + Sync>(
    rt: &R,
    alloc: Global,
    site: &Site<MemKeeper>,
    writer: Seat<MemKeeper>,
    reader: Seat<MemKeeper>,
    readers: u32,
    count: u32,
    words: &str,
) -> (Seat<MemKeeper>, Option<u32>)
    requires writer { writer.site ≡ site.now.table.shared.table_id }
    requires reader { reader.site ≡ site.now.table.shared.table_id }
    ensures { result.0.site ≡ writer.site }
{
    let is_over = Mutex::new(false);
    let shared = &is_over;
    let ((), written) = join(
        rt,
        move ||
            requires { IsSync R.row × (reader.site ≡ site.now.table.shared.table_id) }
        { watch_all(rt, site, reader, readers, shared) },
        move || -> (Seat<MemKeeper>, Option<u32>)
            requires { writer.site ≡ site.now.table.shared.table_id }
            ensures { result.0.site ≡ writer.site }
        { submit_and_end(rt, alloc, site, writer, count, words, shared) },
    );
    written
}

/// The same, alone where there are no readers.
pub(crate) fn load<R: Threads + Wait + Sync>(
    rt: &R,
    alloc: Global,
    site: &Site<MemKeeper>,
    mut writer: Seat<MemKeeper>,
    readers: u32,
    count: u32,
    words: &str,
) -> (Seat<MemKeeper>, Option<u32>)
    requires { writer.site ≡ site.now.table.shared.table_id }
    ensures { result.0.site ≡ writer.site }
{
    if readers == 0 {
        let replies = submit_often(rt, alloc, site, &mut writer, count, words).ok();
        return (writer, replies);
    }
    match site.split(&mut writer) {
        Ok(reader) => load_beside(rt, alloc, site, writer, reader, readers, count, words),
        Err(_) => (writer, None),
    }
}
