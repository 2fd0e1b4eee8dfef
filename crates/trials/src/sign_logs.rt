//! Sign logs: the bytes at the limits, and the refusal at its limit.
use crate::damage::damaged;
use logs::cause::SignDamage;
use logs::sign_log::SignLog;
use std::test::Fail;
use trace::fault::Fault;
use trace::interface::Trace;

#[test]
fn bytes_as_letters(rt: HostRuntime) -> Result<(), Fail> {
    let log = SignLog::open(b"@AZ[a\n")?;
    assert_eq!(rt; log.letters(), 26);
    assert_eq!(rt; log.len(), 6);
    assert!(rt; log.cell(0) == damaged(SignDamage { offset: 0 }));
    assert!(rt; log.cell(1) == Ok(0));
    assert!(rt; log.cell(2) == Ok(25));
    assert!(rt; log.cell(3) == damaged(SignDamage { offset: 3 }));
    assert!(rt; log.cell(4) == damaged(SignDamage { offset: 4 }));
    assert!(rt; log.cell(5) == damaged(SignDamage { offset: 5 }));
    assert!(rt; log.cell(6) == Err(Fault::NoSuchCell));
    assert_eq!(rt; SignDamage { offset: 3 }.cause().number(), 1);
    Ok(())
}

#[test]
fn lengths_of_sign_logs(rt: HostRuntime) -> Result<(), Fail> {
    assert_eq!(rt; SignLog::open(&[])?.len(), 0);
    let mut long: Vec<u8> = vec![in rt.alloc(); 65; 65536]?;
    let log = SignLog::open(long.as_slice())?;
    assert_eq!(rt; log.len(), 65536);
    assert!(rt; log.cell(65535) == Ok(0));
    long.push(65)?;
    let refusal = SignLog::open(long.as_slice()).err();
    assert_eq!(rt; refusal.map(|refusal| refusal.number()), Some(41));
    Ok(())
}
