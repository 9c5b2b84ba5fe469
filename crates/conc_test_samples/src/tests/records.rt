use super::expect::same;
use conc_data_records::{ByteRecord, Records};
use conc_types::NoMemory;
use std::process::Abort;
use std::test::Fail;

// Reads one record more, which has these fields.
fn next_is<Rt: Abort>(
    rt: &Rt,
    records: &mut Records,
    record: &mut ByteRecord,
    fields: &[&[u8]],
) -> Result<(), NoMemory> {
    same(rt, records.read(record)?, true);
    same(rt, record.len(), fields.len());
    for (index, field) in fields.iter().enumerate() {
        same(rt, record.get(index), Some(*field));
    }
    Ok(())
}

#[test]
fn reads_records(rt: HostRuntime) -> Result<(), Fail> {
    let text = b"a,b\n1,\"x,y\"\r\n\n3\n";
    let mut records = Records::of_text(rt.alloc(), text);
    let mut record = ByteRecord::new(rt.alloc());
    next_is(&rt, &mut records, &mut record, &[b"a", b"b"])?;
    next_is(&rt, &mut records, &mut record, &[b"1", b"x,y"])?;
    next_is(&rt, &mut records, &mut record, &[b"3"])?;
    same(&rt, records.read(&mut record)?, false);
    Ok(())
}
