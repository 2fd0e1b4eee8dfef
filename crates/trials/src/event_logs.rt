//! Event logs: the worked examples, each cause, and each refusal at its limit.
use crate::blocks::{headed, sealed, two_blocks};
use crate::damage::{damaged, event};
use logs::cause::{Cause, EventDamage};
use logs::event_log::EventLog;
use logs::refusal::OpenRefusal;
use std::alloc::Global;
use std::test::Fail;
use trace::fault::Fault;
use trace::interface::Trace;
use trace::tally::{Tally, tally_of};

// What opening refuses, if it does.
fn refusal(bytes: &[u8]) -> Option<OpenRefusal> {
    EventLog::open(bytes).err()
}

// Block 0 with the one event at minute 60: dim, to level 200.
fn one_event() -> [u8; 512] {
    let mut block = [0; 512];
    block[2] = 1;
    block[5] = 60;
    block[6] = 2;
    block[7] = 200;
    block[509] = 0xb4;
    block[510] = 0x09;
    block[511] = 0x59;
    block
}

#[test]
fn a_block_with_one_event(rt: HostRuntime) -> Result<(), Fail> {
    let block = one_event();
    let log = EventLog::open(&block)?;
    assert_eq!(rt; log.letters(), 32);
    assert_eq!(rt; log.len(), 1);
    assert!(rt; log.cell(0) == Ok(11));
    assert!(rt; log.cell(1) == Err(Fault::NoSuchCell));
    Ok(())
}

#[test]
fn a_block_of_zeros(rt: HostRuntime) -> Result<(), Fail> {
    let mut block = [0; 512];
    let log = EventLog::open(&block)?;
    assert_eq!(rt;
        tally_of(&log),
        Tally {
            letters: 0,
            damaged: 126,
        }
    );
    assert!(rt; log.cell(125) == damaged(event(Cause::Check, 0)));
    block[511] = 1;
    assert_eq!(rt; EventLog::open(&block)?.len(), 0);
    Ok(())
}

// The length of a log of a full, sound block and this one, and what its cell 126 answers.
fn behind(heap: Global, block: &[u8]) -> Result<(usize, Result<u8, Fault<EventDamage>>), Fail> {
    let bytes = two_blocks(heap, &sealed(headed(0, 126, 0)), block)?;
    let log = EventLog::open(bytes.as_slice())?;
    Ok((log.len(), log.cell(126)))
}

#[test]
fn causes_in_their_order(rt: HostRuntime) -> Result<(), Fail> {
    let heap = rt.alloc();
    assert!(rt; behind(heap, &sealed(headed(1, 3, 0)))? == (129, Ok(0)));
    // number, count and fourth byte are wrong, and so is the check, which counts first
    assert!(rt; behind(heap, &headed(2, 127, 1))? == (252, damaged(event(Cause::Check, 512))));
    assert!(rt;
        behind(heap, &sealed(headed(2, 127, 1)))? == (252, damaged(event(Cause::Number, 512)))
    );
    assert!(rt;
        behind(heap, &sealed(headed(1, 127, 0)))? == (252, damaged(event(Cause::Header, 512)))
    );
    assert!(rt;
        behind(heap, &sealed(headed(1, 126, 1)))? == (252, damaged(event(Cause::Header, 512)))
    );
    assert!(rt; behind(heap, &sealed(headed(1, 126, 0)))? == (252, Ok(0)));
    Ok(())
}

#[test]
fn only_the_last_block_is_short(rt: HostRuntime) -> Result<(), Fail> {
    let bytes = two_blocks(
        rt.alloc(),
        &sealed(headed(0, 125, 0)),
        &sealed(headed(1, 0, 0)),
    )?;
    let log = EventLog::open(bytes.as_slice())?;
    assert_eq!(rt; log.len(), 126);
    assert!(rt; log.cell(125) == damaged(event(Cause::Header, 0)));
    Ok(())
}

#[test]
fn records_out_of_range(rt: HostRuntime) -> Result<(), Fail> {
    let mut block = headed(0, 4, 0);
    // minute 1439, code 7, level 255
    block[4] = 5;
    block[5] = 159;
    block[6] = 7;
    block[7] = 255;
    // minute 1440
    block[8] = 5;
    block[9] = 160;
    // code 8
    block[14] = 8;
    // level 63, and behind the count a record that nobody looks at
    block[19] = 63;
    block[22] = 9;
    let bytes = sealed(block);
    let log = EventLog::open(&bytes)?;
    assert!(rt; log.cell(0) == Ok(31));
    assert!(rt; log.cell(1) == damaged(event(Cause::Record, 8)));
    assert!(rt; log.cell(2) == damaged(event(Cause::Record, 12)));
    assert!(rt; log.cell(3) == Ok(0));
    assert!(rt; log.cell(4) == Err(Fault::NoSuchCell));
    Ok(())
}

#[test]
fn lengths_of_event_logs(rt: HostRuntime) -> Result<(), Fail> {
    assert_eq!(rt; EventLog::open(&[])?.len(), 0);
    assert_eq!(rt; refusal(&[0; 511]), Some(OpenRefusal::EventLogLength));
    assert_eq!(rt; refusal(&[0; 512]), None);
    assert_eq!(rt; refusal(&[0; 513]), Some(OpenRefusal::EventLogLength));
    let mut long: Vec<u8> = vec![in rt.alloc(); 0; 65536]?;
    assert_eq!(rt; EventLog::open(long.as_slice())?.len(), 16128);
    long.extend_from_slice(&[0; 512])?;
    assert_eq!(rt; refusal(long.as_slice()), Some(OpenRefusal::EventLogLength));
    assert_eq!(rt; OpenRefusal::EventLogLength.number(), 42);
    Ok(())
}
