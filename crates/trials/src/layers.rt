//! Layers: piles of four and more over each kind of log, with damage from deep inside.
use crate::blocks::{headed, sealed};
use crate::damage::{damaged, event};
use logs::cause::{Cause, SignDamage};
use logs::event_log::EventLog;
use logs::sign_log::SignLog;
use std::test::Fail;
use trace::fault::{Fault, Origin};
use trace::interface::Trace;
use trace::join::Join;
use trace::reversal::Reversal;
use trace::tally::{Tally, tally_of};
use trace::window::Window;

fn part<T>(below: T, from: usize, to: usize) -> Window<T> {
    Window { below, from, to }
}

fn turned<T>(below: T) -> Reversal<T> {
    Reversal { below }
}

#[test]
fn windows_at_their_limits(rt: HostRuntime) -> Result<(), Fail> {
    let log = SignLog::open(b"ABCDE")?;
    assert_eq!(rt; part(log, 1, 4).len(), 3);
    assert!(rt; part(log, 1, 4).cell(2) == Ok(3));
    assert!(rt; part(log, 1, 4).cell(3) == Err(Fault::NoSuchCell));
    assert_eq!(rt; part(log, 2, 9).len(), 3);
    assert_eq!(rt; part(log, 4, 4).len(), 0);
    assert_eq!(rt; part(log, 5, 9).len(), 0);
    assert_eq!(rt; part(log, 9, 2).len(), 0);
    assert!(rt; part(log, 0, usize::MAX).cell(usize::MAX) == Err(Fault::NoSuchCell));
    Ok(())
}

#[test]
fn a_pile_over_sign_logs(rt: HostRuntime) -> Result<(), Fail> {
    // row by row: AB?D is turned to D?BA, its first three cells are D?B; behind them stand those of XYZ from Y on
    let near = part(turned(SignLog::open(b"AB?D")?), 0, 3);
    let far = part(turned(SignLog::open(b"ZY!")?), 0, 2);
    let pile = turned(part(
        Join {
            first: near,
            second: far,
        },
        1,
        9,
    ));
    // D?B!Y without its first cell, from the end: Y!B?
    assert_eq!(rt; pile.len(), 4);
    assert!(rt; pile.cell(0) == Ok(24));
    assert!(rt; pile.cell(1) == damaged(Origin::Second(SignDamage { offset: 2 })));
    assert!(rt; pile.cell(2) == Ok(1));
    assert!(rt; pile.cell(3) == damaged(Origin::First(SignDamage { offset: 2 })));
    assert!(rt; pile.cell(4) == Err(Fault::NoSuchCell));
    assert_eq!(rt;
        tally_of(&pile),
        Tally {
            letters: 2,
            damaged: 2,
        }
    );
    Ok(())
}

#[test]
fn a_pile_over_event_logs(rt: HostRuntime) -> Result<(), Fail> {
    let mut block = headed(0, 2, 0);
    // the second record has a code that no event has
    block[10] = 8;
    let bytes = sealed(block);
    let pile = joins_in_a_join(EventLog::open(&bytes)?, EventLog::open(&[0; 512])?);
    assert_eq!(rt; pile.len(), 4);
    assert!(rt; pile.cell(0) == Ok(0));
    assert!(rt; pile.cell(1) == damaged(Origin::Second(Origin::First(event(Cause::Check, 0)))));
    assert!(rt; pile.cell(2) == damaged(Origin::First(Origin::Second(event(Cause::Check, 0)))));
    assert!(rt; pile.cell(3) == damaged(Origin::First(Origin::First(event(Cause::Record, 8)))));
    assert!(rt; pile.cell(4) == Err(Fault::NoSuchCell));
    assert_eq!(rt; pile.letters(), 32);
    Ok(())
}

// Of a log of a letter and a damaged record, and of one whose block is damaged: the outer join's mark stands outside.
fn joins_in_a_join<'a>(
    sound: EventLog<'a>,
    bad: EventLog<'a>,
) -> Reversal<Join<Window<Join<Window<EventLog<'a>>>>>> {
    let front = Join {
        first: part(sound, 0, 9),
        second: part(bad, 0, 1),
    };
    let back = Join {
        first: part(bad, 120, 122),
        second: part(sound, 0, 1),
    };
    turned(Join {
        first: part(front, 1, 3),
        second: part(back, 1, 3),
    })
}

#[test]
fn a_lent_pile(rt: HostRuntime) -> Result<(), Fail> {
    let log = SignLog::open(b"A.C")?;
    let pile = turned(&log);
    assert!(rt; pile.cell(1) == damaged(SignDamage { offset: 1 }));
    assert_eq!(rt; tally_of(&&pile).letters, 2);
    Ok(())
}
