//! The rows of a log, the devices that they are read from, and the recorder.
ghost use Rattle.std.specs.Prelude.{◌≤◌};

use std::alloc::Global;
use wc_model::{ByteIn, ByteOut, Device, Fault, FuseIn, Outputs};
use wc_record::{LogFault, Record, Recorder, Row, RowKind, Rows};

/// The next row of a log.
fn next_of<R: ByteIn>(rows: &mut Rows<'_, R>) -> Result<Option<Row>, LogFault> {
    rows.next()
}

/// What a row brings is these bytes.
fn are_bytes(kind: RowKind, bytes: &[u8]) -> bool {
    match kind {
        RowKind::Bytes(found) => found.as_slice() == bytes,
        _ => false,
    }
}

/// The next row brings these bytes to the line.
fn brings_bytes<R: ByteIn>(rows: &mut Rows<'_, R>, bytes: &[u8]) -> bool {
    match next_of(rows) {
        Ok(Some(row)) => {
            let Row { number, ms, kind } = row;
            number == 2 && ms == 5 && are_bytes(kind, bytes)
        }
        _ => false,
    }
}

/// The next row is a scan, and then the log ends.
fn ends_with_a_scan<R: ByteIn>(rows: &mut Rows<'_, R>) -> bool {
    let scan = match next_of(rows) {
        Ok(Some(row)) => matches!(row.kind, RowKind::Scan),
        _ => false,
    };
    scan && matches!(next_of(rows), Ok(None))
}

/// The rows of a log of two.
fn has_two_rows(alloc: Global) -> bool {
    let mut reader = FuseIn::new(b"ms,kind,data\n5,L,0a57\n", b"6,S,\n", 1, false);
    let mut rows = Rows::new(alloc, &mut reader);
    let both = brings_bytes(&mut rows, b"\nW") && ends_with_a_scan(&mut rows);
    drop(rows);
    let counts: (u64, u64) = (ByteIn::failures(&reader), ByteIn::spent(&reader));
    both && counts.0 == 0 && counts.1 > 26
}

/// A device over a slice gives its bytes, and one over a vector takes them.
fn devices_count(alloc: Global) -> bool {
    let mut writer = Device::new(Vec::new(alloc));
    let took = writer.write(b"ab");
    let mut reader = Device::new(b"abc".as_slice());
    let mut buffer = [0; 2];
    let gave = reader.read(&mut buffer);
    let right = matches!(took, Ok(2)) && matches!(gave, Ok(2)) && buffer == *b"ab";
    right && ByteOut::failures(&writer) == 0 && ByteIn::spent(&reader) == 3
}

/// A recorder of the last scan.
fn recorder_of(alloc: Global, number: u16) -> Result<Recorder, Fault>
    requires { (1 ≤ number) × (number ≤ 1000) }
{
    Recorder::new(alloc, number)
}

/// The record of a scan.
fn record(ms: u64) -> Record {
    Record {
        ms,
        steps: 2,
        outputs: Outputs {
            bits: 0,
            words: [0, 0, 0, 0],
        },
    }
}

/// It keeps the last of two scans.
fn keeps_the_last(alloc: Global) -> bool {
    match recorder_of(alloc, 1) {
        Ok(mut recorder) => {
            recorder.keep(record(1));
            recorder.keep(record(2));
            let kept: Option<&Record> = recorder.get(0);
            let last = match kept {
                Some(kept) => kept.ms == 2,
                None => false,
            };
            last && recorder.len() == 1
        }
        Err(_) => false,
    }
}

#[test]
fn rows_and_records(rt: HostRuntime) {
    assert!(rt; has_two_rows(rt.alloc()));
    assert!(rt; devices_count(rt.alloc()));
    assert!(rt; keeps_the_last(rt.alloc()));
}
