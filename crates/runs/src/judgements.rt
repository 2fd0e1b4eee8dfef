//! Drawing and judging on the sheet of ABA, and every question at its limit and one past it.
use judge::{DRAW_WORDS, DrawError, DrawRefusal, JudgeRefusal, WORD_BYTES, draw, judge};
use logs::sign_log::SignLog;
use plan::Plan;
use reading::{AdmitRefusal, Reading};
use sheet::Sheet;
use std::alloc::Global;
use std::test::Fail;

/// The states of the sheet of ABA over 26 letters; the prefix mark of state 2 is as it is told.
fn states(heap: Global, second: bool) -> Result<Sheet, Fail> {
    let mut sheet = Sheet::single(heap, 26, 3)?;
    for (marks, prefix) in &[(0, second), (0, false), (0, false), (0, true), (1, false)] {
        let _ = sheet.push_state(*marks, *prefix)?;
    }
    Ok(sheet)
}

/// The arrows of that sheet, without one by A from state 3 where it is told so.
fn aba(heap: Global, second: bool, third: bool) -> Result<Sheet, Fail> {
    let mut sheet = states(heap, second)?;
    for (from, letter, to) in &[(1, 0, 2), (1, 1, 3), (2, 1, 4), (4, 0, 6)] {
        let _ = sheet.set_arrow(*from, *letter, *to);
    }
    if third {
        let _ = sheet.set_arrow(3, 0, 5);
    }
    Ok(sheet)
}

/// Whether both sheets have the same marks and arrows by all letters, and as many states.
fn alike(one: &Sheet, other: &Sheet) -> bool {
    one.states() == other.states() && (1..=255).all(|q| alike_at(one, other, q))
}

fn alike_at(one: &Sheet, other: &Sheet, q: u16) -> bool {
    one.marks(q) == other.marks(q)
        && one.is_prefix(q) == other.is_prefix(q)
        && (0..=255).all(|a| one.follow(q, a) == other.follow(q, a))
}

#[test]
fn the_sheet_that_is_drawn(rt: HostRuntime) -> Result<(), Fail> {
    let heap = rt.alloc();
    let plan = Plan::read(26, b"ABA\n")?;
    let mut memory: Vec<u64> = vec![in heap; 7; DRAW_WORDS]?;
    let drawn = draw(heap, &plan, memory.as_mut_slice())?;
    assert_eq!(rt;
        (drawn.letters(), drawn.shortest(), drawn.states()),
        (26, 3, 6)
    );
    assert!(rt; alike(&drawn, &aba(heap, true, true)?));
    assert!(rt; memory.iter().all(|word| *word == 0));
    Ok(())
}

/// The number of what drawing refuses, 0 for a sheet and 255 where memory is wanting; and whether the memory is all zeros then.
fn drawn(heap: Global, letters: u8, text: &[u8], words: usize) -> Result<(u8, bool), Fail> {
    let plan = Plan::read(letters, text)?;
    let mut memory: Vec<u64> = vec![in heap; 7; words]?;
    let number = match draw(heap, &plan, memory.as_mut_slice()) {
        Ok(_) => 0,
        Err(DrawError::Refused(refusal)) => refusal.number(),
        Err(DrawError::NoMemory) => 255,
    };
    Ok((number, memory.iter().all(|word| *word == 0)))
}

#[test]
fn questions_about_drawing(rt: HostRuntime) -> Result<(), Fail> {
    let heap = rt.alloc();
    assert_eq!(rt; drawn(heap, 26, b"ABA\n", DRAW_WORDS - 1)?, (20, true));
    assert_eq!(rt; drawn(heap, 26, b"ABA\n", DRAW_WORDS + 1)?, (0, true));
    assert_eq!(rt;
        drawn(heap, 26, b"..........A..........\n", DRAW_WORDS)?,
        (21, true)
    );
    // 20 is asked first
    assert_eq!(rt; drawn(heap, 26, b"..........A..........\n", 0)?, (20, true));
    // 253 states
    assert_eq!(rt;
        drawn(heap, 32, b".......\nA.....\n", DRAW_WORDS)?,
        (0, true)
    );
    Ok(())
}

/// The word buffer has this word at its front, and behind it what it was filled with.
fn holds(buffer: &[u8], word: &[u8]) -> bool {
    buffer
        .iter()
        .enumerate()
        .all(|(i, byte)| *byte == word.get(i).copied().unwrap_or(9))
}

/// Judging the sheet for ABA in so many words of memory and bytes of a word answers so, writes this word, and wipes the memory.
fn judges(
    heap: Global,
    sheet: &Sheet,
    room: (usize, usize),
    answer: Result<(), JudgeRefusal>,
    word: &[u8],
) -> Result<bool, Fail> {
    let plan = Plan::read(26, b"ABA\n")?;
    let mut memory: Vec<u64> = vec![in heap; 7; room.0]?;
    let mut buffer: Vec<u8> = vec![in heap; 9; room.1]?;
    let said = judge(&plan, sheet, memory.as_mut_slice(), buffer.as_mut_slice());
    let wiped = memory.iter().all(|word| *word == 0);
    Ok(said == answer && wiped && holds(buffer.as_slice(), word))
}

#[test]
fn questions_about_a_sheet(rt: HostRuntime) -> Result<(), Fail> {
    let heap = rt.alloc();
    let sheet = aba(heap, true, true)?;
    let room = (DRAW_WORDS, WORD_BYTES);
    assert!(rt; judges(heap, &sheet, room, Ok(()), &[])?);
    assert!(rt;
        judges(
            heap,
            &Sheet::single(heap, 2, 3)?,
            room,
            Err(JudgeRefusal::Letters),
            &[]
        )?
    );
    assert!(rt;
        judges(
            heap,
            &Sheet::single(heap, 26, 2)?,
            room,
            Err(JudgeRefusal::Shortest),
            &[]
        )?
    );
    assert!(rt; judges(heap, &sheet, (4, 64), Err(JudgeRefusal::Room), &[])?);
    assert!(rt; judges(heap, &sheet, (3, 65), Err(JudgeRefusal::Room), &[])?);
    assert!(rt; judges(heap, &sheet, (4, 65), Err(JudgeRefusal::Pairs), &[])?);
    // six pairs
    assert!(rt; judges(heap, &sheet, (20, 65), Err(JudgeRefusal::Pairs), &[])?);
    assert!(rt; judges(heap, &sheet, (23, 65), Err(JudgeRefusal::Pairs), &[])?);
    assert!(rt; judges(heap, &sheet, (24, 65), Ok(()), &[])?);
    Ok(())
}

#[test]
fn first_wrong_words(rt: HostRuntime) -> Result<(), Fail> {
    let heap = rt.alloc();
    let room = (24, WORD_BYTES);
    let unmarked = aba(heap, false, true)?;
    assert!(rt; judges(heap, &unmarked, room, Err(JudgeRefusal::Word(1)), &[0])?);
    let shorter = aba(heap, true, false)?;
    assert!(rt; judges(heap, &shorter, room, Err(JudgeRefusal::Word(2)), &[1, 0])?);
    // a word that is wrong before more pairs are shown than there is room for
    assert!(rt; judges(heap, &unmarked, (4, 65), Err(JudgeRefusal::Word(1)), &[0])?);
    Ok(())
}

#[test]
fn spare_states_do_no_harm(rt: HostRuntime) -> Result<(), Fail> {
    let heap = rt.alloc();
    let mut sheet = aba(heap, true, true)?;
    let spare = sheet.push_state(5, true)?;
    assert!(rt; sheet.set_arrow(spare, 3, 1));
    assert!(rt; judges(heap, &sheet, (24, 65), Ok(()), &[])?);
    Ok(())
}

#[test]
fn numbers_of_refusals(rt: HostRuntime) {
    assert_eq!(rt;
        (DrawRefusal::Words.number(), DrawRefusal::States.number()),
        (20, 21)
    );
    assert_eq!(rt; AdmitRefusal::Alphabet.number(), 31);
    let refusals: &[(JudgeRefusal, u8)] = &[
        (JudgeRefusal::Letters, 32),
        (JudgeRefusal::Shortest, 33),
        (JudgeRefusal::Room, 34),
        (JudgeRefusal::Pairs, 35),
        (JudgeRefusal::Word(7), 36),
    ];
    for (refusal, number) in refusals {
        assert_eq!(rt; refusal.number(), *number);
        assert_eq!(rt; AdmitRefusal::Sheet(*refusal).number(), *number);
    }
}

/// The number of what an admission to a reading of a sign log refuses, 0 where it accepts, and whether next answers a hit of ABA then, and a second.
fn admits(heap: Global, letters: u8, words: usize) -> Result<(u8, bool, bool), Fail> {
    let plan = Plan::read(letters, b"ABA\n")?;
    let mut memory: Vec<u64> = vec![in heap; 7; words]?;
    let mut word: Vec<u8> = vec![in heap; 9; WORD_BYTES]?;
    let mut reading = Reading::new(heap, SignLog::open(b"ABABA")?)?;
    let sheet = aba(heap, true, true)?;
    let answer = reading.admit(plan, sheet, memory.as_mut_slice(), word.as_mut_slice());
    let number = match answer {
        Ok(()) => 0,
        Err(refusal) => refusal.number(),
    };
    let mut search = reading.begin();
    let first = search.next().is_some();
    let second = search.next().is_some();
    Ok((number, first, second))
}

#[test]
fn a_refusal_keeps_the_reading(rt: HostRuntime) -> Result<(), Fail> {
    let heap = rt.alloc();
    assert_eq!(rt; admits(heap, 26, 24)?, (0, true, true));
    assert_eq!(rt; admits(heap, 26, 23)?, (35, false, false));
    assert_eq!(rt; admits(heap, 26, 3)?, (34, false, false));
    assert_eq!(rt; admits(heap, 25, 24)?, (31, false, false));
    Ok(())
}
