ghost use Rattle.std.specs.Prelude.{◌≡◌, ◌<◌, length};

use crate::Links;
use std::alloc::Global;
use std::process::Abort;
use std::test::Fail;

#[test]
fn items_move_between_lists(rt: HostRuntime) -> Result<(), Fail> {
    let mut links = Links::new(rt.alloc(), 4, 2)?;
    links.push_back(0, 2);
    links.push_back(0, 3);
    links.push_front(0, 1);
    assert_eq!(rt; links.first(0), Some(1));
    assert_eq!(rt; links.next(1), Some(2));
    assert_eq!(rt; links.next(2), Some(3));
    assert_eq!(rt; links.next(3), None);
    links.move_to(1, 2);
    assert_eq!(rt; links.next(1), Some(3));
    assert_eq!(rt; links.first(1), Some(2));
    assert_eq!(rt; links.list_of(2), Some(1));
    links.unlink(2);
    assert_eq!(rt; links.list_of(2), None);
    assert_eq!(rt; links.next(2), None);
    assert_eq!(rt; links.first(1), None);
    Ok(())
}

// The next number of a fixed sequence that looks random.
fn another(seed: &mut u32) -> u32 {
    *seed = seed.wrapping_mul(1_664_525).wrapping_add(1_013_904_223);
    *seed >> 16
}

// A call on the lists, and the same on plain ones.
fn call(
    rt: &impl Abort,
    links: &mut Links,
    plain: &mut Vec<Vec<u32>>,
    seed: &mut u32,
) -> Result<(), Fail>
    requires items { links.old.items ≡ 8 }
    requires lists { length links.old.members ≡ 3 }
    ensures items { links.new.items ≡ 8 }
    ensures lists { length links.new.members ≡ 3 }
{
    let item = another(seed) % 8;
    let list = another(seed) % 3;
    let odd = another(seed) % 2 == 1;
    assert!(rt; plain.len() == 3);
    match links.list_of(item) {
        None if odd => {
            links.push_front(list, item);
            plain[list as usize].insert(0, item)?;
        }
        None => {
            links.push_back(list, item);
            plain[list as usize].push(item)?;
        }
        Some(before) => {
            assert!(rt; before < 3);
            plain[before as usize].retain(|other| *other != item);
            if odd {
                links.unlink(item);
            } else {
                links.move_to(list, item);
                plain[list as usize].push(item)?;
            }
        }
    }
    Ok(())
}

// The items of a list, from the first on.
fn items_of(rt: &impl Abort, alloc: Global, links: &Links, list: u32) -> Result<Vec<u32>, Fail>
    requires items { links.now.items ≡ 8 }
    requires list { list < length links.now.members }
{
    let mut items = Vec::new(alloc);
    let mut next = links.first(list);
    for _ in 0..9 {
        let Some(item) = next else {
            return Ok(items);
        };
        assert!(rt; item < 8);
        assert_eq!(rt; links.list_of(item), Some(list));
        items.push(item)?;
        next = links.next(item);
    }
    Ok(items)
}

// The lists have the items of the plain ones.
fn compare(rt: &impl Abort, alloc: Global, links: &Links, plain: &Vec<Vec<u32>>) -> Result<(), Fail>
    requires items { links.now.items ≡ 8 }
    requires lists { length links.now.members ≡ 3 }
{
    assert!(rt; plain.len() == 3);
    for list in 0..3 {
        let items = items_of(rt, alloc, links, list)?;
        assert!(rt; items == plain[list as usize]);
    }
    Ok(())
}

#[test]
fn a_thousand_calls_answer_as_plain_lists(rt: HostRuntime) -> Result<(), Fail> {
    let alloc = rt.alloc();
    let mut links = Links::new(alloc, 8, 3)?;
    let mut plain = vec![in alloc; Vec::new(alloc), Vec::new(alloc), Vec::new(alloc)]?;
    let mut seed = 1;
    for _turn in 0..1_000 {
        call(&rt, &mut links, &mut plain, &mut seed)?;
        compare(&rt, alloc, &links, &plain)?;
    }
    Ok(())
}
