use gds_record::{GdsRec, RecFault, RecordType, next_record};

#[test]
fn finds_records(rt: HostRuntime) {
    let header: [u8; 7] = [0, 6, 0, 2, 2, 88, 0];
    let first = GdsRec {
        at: 0,
        code: RecordType::Header.number(),
        form: RecordType::Header.data_type().number(),
        next: 6,
    };
    assert!(rt; next_record(&header, 0) == Ok(first));
    assert!(rt; next_record(&header, 6) == Err(RecFault::Cut { at: 6 }));
    assert!(rt; next_record(&header, 1) == Err(RecFault::Cut { at: 1 }));
    assert!(rt; next_record(&[], 0) == Err(RecFault::Cut { at: 0 }));
    assert!(rt; next_record(&[0, 2, 0, 2], 0) == Err(RecFault::Length { at: 0 }));
    assert!(rt; RecordType::numbered(0x2d) == Some(RecordType::Box));
    assert!(rt; RecordType::numbered(0x2e).is_none());
}
