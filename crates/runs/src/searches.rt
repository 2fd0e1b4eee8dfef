//! The sheet of ABA is drawn, admitted and searched with, in the log XABABA.
use judge::{DRAW_WORDS, WORD_BYTES, draw};
use logs::cause::SignDamage;
use logs::sign_log::SignLog;
use plan::Plan;
use reading::{Answer, Call, Hit, Reading, perform};
use sheet::Sheet;
use std::alloc::Global;
use std::test::Fail;

const FIRST: Hit = Hit {
    start: 1,
    end: 3,
    marks: 1,
};

const SECOND: Hit = Hit {
    start: 3,
    end: 5,
    marks: 1,
};

// The plan of ABA and its sheet, and the memory that it was drawn in, which was full of this word.
fn drawn(heap: Global, full: u64) -> Result<(Plan, Sheet, Vec<u64>), Fail> {
    let plan = Plan::read(26, b"ABA\n")?;
    let mut memory: Vec<u64> = vec![in heap; full; DRAW_WORDS]?;
    let sheet = draw(heap, &plan, memory.as_mut_slice())?;
    Ok((plan, sheet, memory))
}

#[test]
fn a_search(rt: HostRuntime) -> Result<(), Fail> {
    let heap = rt.alloc();
    let (plan, sheet, mut memory) = drawn(heap, 7)?;
    let mut word: Vec<u8> = vec![in heap; 9; WORD_BYTES]?;
    let mut reading = Reading::new(heap, SignLog::open(b"XABABA")?)?;
    let admitted = reading.admit(plan, sheet, memory.as_mut_slice(), word.as_mut_slice());
    assert!(rt; admitted.is_ok());
    let mut search = reading.begin();
    assert_eq!(rt; search.next(), Some(FIRST));
    assert_eq!(rt; search.next(), Some(SECOND));
    assert_eq!(rt; search.next(), None);
    let report = search.report();
    assert_eq!(rt; (report.hits, report.damaged), (2, None));
    Ok(())
}

// The sheet of ABA is drawn, and is to be admitted.
fn admission(heap: Global) -> Result<Call, Fail> {
    let (plan, sheet, memory) = drawn(heap, 0)?;
    Ok(Call::Admit {
        plan,
        sheet,
        memory,
        word: vec![in heap; 0; WORD_BYTES]?,
    })
}

fn hit_in(answer: &Answer<SignDamage>) -> Option<Hit> {
    match answer {
        Answer::Found(found) => *found,
        _ => None,
    }
}

#[test]
fn a_list_of_calls(rt: HostRuntime) -> Result<(), Fail> {
    let heap = rt.alloc();
    let calls: Vec<Call> = vec![in heap;
        admission(heap)?,
        Call::Begin,
        Call::Next,
        Call::Next,
        Call::Next,
    ]?;
    let answers = perform(heap, SignLog::open(b"XABABA")?, calls)?;
    assert_eq!(rt; answers.len(), 5);
    let hits: Vec<Hit> = answers.iter().filter_map(hit_in).collect(heap)?;
    assert!(rt; hits.as_slice() == [FIRST, SECOND].as_slice());
    Ok(())
}

// The same, with a memory that has no group of four words, so that it is refused.
fn refused_admission(heap: Global) -> Result<Call, Fail> {
    let (plan, sheet, _) = drawn(heap, 0)?;
    Ok(Call::Admit {
        plan,
        sheet,
        memory: vec![in heap; 0; 3]?,
        word: vec![in heap; 0; WORD_BYTES]?,
    })
}

fn kind(answer: &Answer<SignDamage>) -> &'static str {
    match answer {
        Answer::Drawn { .. } => "drawn",
        Answer::Judged {
            verdict: Ok(()),
            ..
        } => "accepted",
        Answer::Judged { .. } => "refused",
        Answer::Cell(_) => "cell",
        Answer::Begun => "begun",
        Answer::Found(Some(_)) => "hit",
        Answer::Found(None) => "end",
        Answer::Told(_) => "told",
        Answer::Closed => "closed",
        Answer::OutOfTurn(_) => "out of turn",
    }
}

#[test]
fn calls_out_of_turn_and_refused(rt: HostRuntime) -> Result<(), Fail> {
    let heap = rt.alloc();
    let calls: Vec<Call> = vec![in heap;
        Call::Next,
        Call::Report,
        Call::Close,
        Call::Begin,
        Call::Next,
        admission(heap)?,
        Call::Close,
        refused_admission(heap)?,
        Call::Begin,
        Call::Next,
        Call::Close,
        admission(heap)?,
        Call::Inspect(0),
        Call::Begin,
        Call::Next,
        Call::Begin,
        Call::Next,
        Call::Next,
        Call::Next,
        Call::Report,
    ]?;
    // The plan without patterns has no hit; a begin inside a search starts anew.
    let kinds: &[&str] = &[
        "out of turn",
        "out of turn",
        "out of turn",
        "begun",
        "end",
        "out of turn",
        "closed",
        "refused",
        "begun",
        "end",
        "closed",
        "accepted",
        "cell",
        "begun",
        "hit",
        "begun",
        "hit",
        "hit",
        "end",
        "told",
    ];
    let answers = perform(heap, SignLog::open(b"XABABA")?, calls)?;
    assert_eq!(rt; answers.len(), kinds.len());
    for (answer, wanted) in answers.iter().zip(kinds) {
        assert_eq!(rt; kind(answer), *wanted);
    }
    Ok(())
}
