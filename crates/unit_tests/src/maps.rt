use name_index::NameIndex;
use pair_map::PairMap;
use std::test::Fail;
use trust_types::{AccountNo, Name, Text};

#[test]
fn a_map_keeps_the_last_value_of_each_pair(rt: HostRuntime) -> Result<(), Fail> {
    let mut map = PairMap::new(rt.alloc());
    for (a, b, value) in [(1, 2, 'a'), (2, 1, 'b'), (1, 2, 'c'), (3, 3, 'e')] {
        map.insert(a, b, value)?;
    }
    assert_eq!(rt; map.remove(3, 3), Some('e'));
    assert_eq!(rt; map.get(1, 2), Some('c'));
    assert!(rt; map.contains(2, 1) && !map.contains(9, 0));
    assert_eq!(rt; map.len(), 2);
    let mut line = String::new(rt.alloc());
    for ((a, b), value) in map.into_pairs() {
        write!(line, "{a} {b} {value}, ")?;
    }
    assert_eq!(rt; line.as_str(), "1 2 c, 2 1 b, ");
    Ok(())
}

#[test]
fn an_index_finds_names_before_and_after_it_settles(rt: HostRuntime) -> Result<(), Fail> {
    let alloc = rt.alloc();
    let raph = Name::read(b"raph").ok_or("raph")?;
    let alan = Name::read(b"alan").ok_or("alan")?;
    let mut index = NameIndex::new(alloc);
    index.push(raph)?;
    assert_eq!(rt; index.find(&alan), None);
    index.push(alan)?;
    index.settle()?;
    assert_eq!(rt; index.find(&raph), Some(AccountNo(0)));
    assert_eq!(rt; index.find(&alan), Some(AccountNo(1)));
    let again = NameIndex::of(alloc, index.into_names())?;
    assert_eq!(rt; again.count(), 2);
    assert_eq!(rt; again.find(&alan), Some(AccountNo(1)));
    Ok(())
}

#[test]
fn a_text_is_kept(rt: HostRuntime) -> Result<(), Fail> {
    let copy = Text::of(rt.alloc(), "certified")?.copy(rt.alloc())?;
    assert_eq!(rt; copy.as_str(), "certified");
    Ok(())
}
