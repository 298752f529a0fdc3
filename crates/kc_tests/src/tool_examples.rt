//! The examples at the front of kc_command and kc_tool.
use kc_fastx::FromBytes;
use kc_tool::{Dump, K, Options, Print, ToVec, count_reads};
use std::test::Fail;

#[test]
fn a_read_is_counted_and_dumped(rt: HostRuntime) -> Result<(), Fail> {
    let alloc = rt.alloc();
    let k = K::new(3).ok_or("a length")?;
    let options = Options::new(k)
        .with_print(Print::Dump)
        .with_dump(Dump::in_columns());
    let sources = vec![in alloc; FromBytes::new(b">r1\nACGTA\n")]?;
    let mut writer = ToVec::new(Vec::new(alloc));
    count_reads(
        &rt,
        alloc,
        None::<FromBytes>,
        sources,
        &options,
        &mut writer,
    )?;
    assert_eq!(rt; writer.as_slice(), b"ACG 1\nCGT 1\nGTA 1\n".as_slice());
    Ok(())
}
