ghost use Rattle.std.specs.Prelude.{◌≤◌};

use crate::line::{Kept, Line, Seen, Step};
use rp_base::{Key, Lost, NoMemory, Node};
use std::alloc::Global;
use std::test::Fail;

// How many steps go as is written beside them, before the first one that doesn't, and what the tail has kept then.
fn outcome(
    alloc: Global,
    members: u8,
    cells: u16,
    steps: &[(u64, Step, Seen)],
) -> Result<(usize, Option<Kept>), NoMemory>
    requires { cells ≤ 256 }
{
    let Some(key) = Key::of(b"a") else {
        return Ok((0, None));
    };
    let mut line = Line::open(alloc, key, members, cells)?;
    for i in 0..steps.len() {
        let (now, step, seen) = &steps[i];
        line.take(*now, step)?;
        if line.seen() != *seen {
            return Ok((i, line.kept()));
        }
    }
    Ok((steps.len(), line.kept()))
}

#[test]
fn a_lost_forward_goes_again_and_the_tail_answers(rt: HostRuntime) -> Result<(), Fail> {
    let steps = [
        (5, Step::Ask(0, 1), Seen::First(7, Node::Replica(1), 1)),
        (5, Step::Lose, Seen::Nothing),
        (6, Step::Alarm, Seen::First(7, Node::Replica(1), 0)),
        (6, Step::Carry, Seen::First(7, Node::Replica(2), 0)),
        // the tail tells the owner, and its predecessor
        (6, Step::Carry, Seen::First(2, Node::Switch(0), 0)),
        (6, Step::Carry, Seen::First(8, Node::Replica(1), 0)),
        (6, Step::Carry, Seen::First(8, Node::Replica(0), 0)),
        (6, Step::Carry, Seen::Nothing),
        (7, Step::Alarm, Seen::Nothing),
        // what was lost with the Forward comes back with the same Ask
        (8, Step::Ask(0, 1), Seen::First(9, Node::Replica(2), 1)),
        (8, Step::Carry, Seen::First(2, Node::Switch(0), 1)),
    ];
    let kept = Kept {
        epoch: 1,
        last: 0,
        moment: 6,
        cells: 1,
    };
    assert_eq!(rt; outcome(rt.alloc(), 3, 1, &steps)?, (11, Some(kept)));
    Ok(())
}

#[test]
fn puts_go_by_epoch_and_number(rt: HostRuntime) -> Result<(), Fail> {
    let steps = [
        // of a flow without a record
        (5, Step::Put(1, 1), Seen::First(6, Node::Switch(0), 0)),
        (5, Step::Lose, Seen::Nothing),
        (5, Step::Ask(0, 1), Seen::First(7, Node::Replica(1), 1)),
        (5, Step::Carry, Seen::First(7, Node::Replica(2), 1)),
        (5, Step::Carry, Seen::First(2, Node::Switch(0), 1)),
        (5, Step::Carry, Seen::First(8, Node::Replica(1), 0)),
        (5, Step::Carry, Seen::First(8, Node::Replica(0), 0)),
        (5, Step::Carry, Seen::Nothing),
        // too far, and next
        (6, Step::Put(2, 2), Seen::Lost(Lost::Gap)),
        (6, Step::Put(1, 3), Seen::First(7, Node::Replica(1), 3)),
        (6, Step::Carry, Seen::First(7, Node::Replica(2), 3)),
        (6, Step::Carry, Seen::First(5, Node::Switch(0), 3)),
        (6, Step::Lose, Seen::First(8, Node::Replica(1), 0)),
        (6, Step::Lose, Seen::Nothing),
        // another switch waits for the end of the term
        (1105, Step::Ask(1, 4), Seen::First(3, Node::Switch(1), 0)),
        (1105, Step::Lose, Seen::Nothing),
        (1106, Step::Ask(1, 5), Seen::First(7, Node::Replica(1), 5)),
    ];
    let kept = Kept {
        epoch: 1,
        last: 1,
        moment: 6,
        cells: 1,
    };
    assert_eq!(rt; outcome(rt.alloc(), 3, 1, &steps)?, (17, Some(kept)));
    Ok(())
}

// The last of two chunks comes first.
#[test]
fn a_round_is_appended_once_it_is_whole(rt: HostRuntime) -> Result<(), Fail> {
    let steps = [
        (1, Step::Ask(0, 1), Seen::First(2, Node::Switch(0), 1)),
        (1, Step::Lose, Seen::Nothing),
        (2, Step::Snap(9, 1), Seen::Lost(Lost::Stale)),
        (3, Step::Snap(8, 1), Seen::Nothing),
        (4, Step::Snap(32, 0), Seen::First(5, Node::Switch(0), 0)),
    ];
    let kept = Kept {
        epoch: 1,
        last: 1,
        moment: 4,
        cells: 40,
    };
    assert_eq!(rt; outcome(rt.alloc(), 1, 40, &steps)?, (5, Some(kept)));
    Ok(())
}
