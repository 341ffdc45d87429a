use crate::roster_pair::Mirror;
use roster::grid::Grid;
use roster::schedule_book::ScheduleBook;
use roster::traits::Roster;
use std::process::Abort;
use std::test::Fail;
use text::answer::answer;

// In every row and slot, also past the last, both rosters answer the same.
fn agree_everywhere(rt: &impl Abort, mirror: &Mirror<Grid, ScheduleBook>) {
    for row in 0..17 {
        for slot in 0..33 {
            assert!(rt; mirror.agree(row, slot));
        }
    }
}

#[test]
fn both_take_every_change(rt: HostRuntime) {
    let mut mirror = Mirror::new(Grid::new(), ScheduleBook::new());
    mirror.add(3, 5, 0xf0f0_0001);
    mirror.add(15, 15, 0xffff_ffff);
    mirror.add(16, 0, 1);
    mirror.add(0, 16, 1);
    agree_everywhere(&rt, &mirror);
    assert_eq!(rt; mirror.mask(3, 31), 32);
    assert_eq!(rt; mirror.mask(3, 1), 0);
    assert_eq!(rt; mirror.mask(15, 7), 0x8000);
    assert_eq!(rt; mirror.mask(0, 0), 0);
    mirror.take(3, 5, 0x8000_0000);
    mirror.take(15, 14, 1);
    agree_everywhere(&rt, &mirror);
    assert_eq!(rt; mirror.mask(3, 31), 0);
    assert_eq!(rt; mirror.mask(3, 0), 32);
    mirror.clear();
    agree_everywhere(&rt, &mirror);
    assert_eq!(rt; mirror.mask(15, 7), 0);
}

#[test]
fn stands_under_a_register(rt: HostRuntime) -> Result<(), Fail> {
    let plan = b"size 1 2 1\nput 0 0 2\nput 1 0 3\nperm 0 1\nforce\nmay 1 0\ntick\nmay 1 0\n";
    let mut out = vec![in rt.alloc(); 0u8; 1000]?;
    let mirror = Mirror::new(Grid::new(), ScheduleBook::new());
    let written = answer(mirror, plan, &mut out)?;
    assert_eq!(rt;
        &out[..written],
        b"ok\nok\nok\nok\nok\nmay 0\nok\nmay 1\n".as_slice()
    );
    Ok(())
}
