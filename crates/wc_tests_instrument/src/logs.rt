//! How logs end, what a reader is asked for, and what a scan sees.
use std::alloc::{AllocError, Global};
use std::io;
use std::io::Read;
use wc_indicator::Indicator;
use wc_model::{ByteIn, Device, Fault, FuseIn, Image};
use wc_plate::plate;
use wc_record::{LogFault, RowKind, Rows, image, is_exhausted};

/// The number of rows left, up to n, and the fault that ends them, if one does.
pub(crate) fn rows_left<R: ByteIn>(rows: &mut Rows<'_, R>, most: u32) -> (u32, Option<LogFault>) {
    for count in 0..most {
        match rows.next() {
            Ok(Some(_)) => {}
            Ok(None) => return (count, None),
            Err(fault) => return (count, Some(fault)),
        }
    }
    (most, None)
}

/// N rows of a reader come before its end, or before this fault; asked again, it gives none and the same.
pub(crate) fn ends_so<R: ByteIn>(
    alloc: Global,
    reader: &mut R,
    count: u32,
    fault: Option<LogFault>,
) -> bool {
    let mut rows = Rows::new(alloc, reader);
    let (first, raised) = rows_left(&mut rows, 2000000);
    let (second, again) = rows_left(&mut rows, 2000000);
    drop(rows);
    first == count && raised == fault && second == 0 && again == fault
}

/// A refusal.
pub(crate) fn refusal(number: u16, place: u32) -> Option<LogFault> {
    Some(LogFault::Refused { number, place })
}

/// A log of these bytes ends so.
fn log_ends(alloc: Global, text: &[u8], count: u32, fault: Option<LogFault>) -> bool {
    ends_so(alloc, &mut Device::new(text), count, fault)
}

/// A reader that fails after these bytes gives n rows; it is asked no further than its fault.
fn fails_after(alloc: Global, head: &[u8], count: u32) -> bool {
    let mut device = FuseIn::new(head, b"", 0, true);
    ends_so(alloc, &mut device, count, Some(LogFault::Read)) && device.failures() == 1
}

/// What is read before a reader fails, and the number of rows of it.
const BEFORE_A_FAILURE: [(&[u8], u32); 4] = [
    (b"", 0),
    (b"ms,kind", 0),
    (b"ms,kind,data\n", 0),
    (b"ms,kind,data\n0,S,\n5,C,1", 1),
];

#[test]
fn a_reader_that_fails(rt: HostRuntime) {
    for (head, count) in &BEFORE_A_FAILURE {
        assert!(rt; fails_after(rt.alloc(), head, *count));
    }
}

/// A log of one row that brings n bytes to the line.
fn row_of_bytes(alloc: Global, count: usize) -> Result<Vec<u8, Global>, AllocError> {
    let mut text = Vec::new(alloc);
    text.extend_from_slice(b"ms,kind,data\n0,L,")?;
    for _ in 0..count {
        text.extend_from_slice(b"0a")?;
    }
    Ok(text)
}

/// The next row brings n bytes to the line.
fn brings<R: ByteIn>(rows: &mut Rows<'_, R>, count: usize) -> bool {
    match rows.next() {
        Ok(Some(row)) => match &row.kind {
            RowKind::Bytes(bytes) => bytes.len() == count,
            _ => false,
        },
        _ => false,
    }
}

/// The first row after the heading brings n bytes.
fn first_brings(alloc: Global, text: &[u8], count: usize) -> bool {
    let mut device = Device::new(text);
    let mut rows = Rows::new(alloc, &mut device);
    let brought = brings(&mut rows, count);
    drop(rows);
    brought
}

/// A row brings 4096 bytes, and no more.
fn brings_4096_bytes(alloc: Global) -> Result<bool, AllocError> {
    let full = row_of_bytes(alloc, 4096)?;
    let long = row_of_bytes(alloc, 4097)?;
    Ok(first_brings(alloc, &full, 4096) && log_ends(alloc, &long, 0, refusal(606, 2)))
}

#[test]
fn a_row_brings_4096_bytes(rt: HostRuntime) {
    assert!(rt; brings_4096_bytes(rt.alloc()) == Ok(true));
}

/// A reader of blank lines whose count may start anywhere.
#[derive(Drop)]
struct CountingReader {
    spent: u64,
}

impl ByteIn for CountingReader {
    ghost failure_count = { λ _. 0 };

    ghost spent_count = { λ reader. reader.spent };

    fn read(&mut self, buffer: &mut [u8]) -> io::Result<usize> {
        let mut line = b"\n".as_slice();
        let result = line.read(buffer);
        self.spent = self.spent.saturating_add(1);
        if let Ok(count) = &result {
            self.spent = self.spent.saturating_add(*count as u64);
        }
        result
    }

    fn failures(&self) -> u64 {
        0
    }

    fn spent(&self) -> u64 {
        self.spent
    }
}

/// A log of blank lines is read up to the last count.
fn ends_with_the_count(alloc: Global, start: u64) -> bool {
    let mut reader = CountingReader { spent: start };
    ends_so(alloc, &mut reader, 0, Some(LogFault::Read)) && reader.spent() == u64::MAX
}

#[test]
fn blank_lines_until_the_count_ends(rt: HostRuntime) {
    assert!(rt; ends_with_the_count(rt.alloc(), u64::MAX));
    assert!(rt; ends_with_the_count(rt.alloc(), u64::MAX - 7));
}

#[test]
fn the_bound_on_what_is_read(rt: HostRuntime) {
    assert!(rt; !is_exhausted(5, 5) && !is_exhausted(5, 134217732));
    assert!(rt; is_exhausted(5, 134217733) && is_exhausted(u64::MAX, u64::MAX));
}

/// A plate of 15 kg in steps of 5 g.
const FIFTEEN_KILOGRAMS: &[u8] =
    b"unit = \"kg\"\ndecimals = 3\nmax = 15000\ne = 5\nzero_counts = 10000\nspan_counts = 600000\nwindow = 4\n";

/// What a scan sees before the first sample, and with a load of 5 g below zero at rest.
fn images_of_a_load(alloc: Global) -> Result<(Image, Image), Fault> {
    let read = plate(alloc, FIFTEEN_KILOGRAMS)?;
    let mut indicator = Indicator::new(alloc, read)?;
    let before = image(&indicator, 0x8001);
    for _ in 0..4 {
        indicator.sample(9900);
    }
    Ok((before, image(&indicator, 2)))
}

/// The image has these inputs, this status and this weight as gross and net.
fn is_image(image: &Image, inputs: u16, status: u8, gross: i32) -> bool {
    image.inputs == inputs && image.status == status && image.weights == [gross, gross, 0]
}

/// The images of that load are right.
fn are_images(alloc: Global) -> bool {
    match images_of_a_load(alloc) {
        Ok((before, after)) => is_image(&before, 0x8001, 0, 0) && is_image(&after, 2, 33, -5),
        Err(_) => false,
    }
}

#[test]
fn images(rt: HostRuntime) {
    assert!(rt; are_images(rt.alloc()));
}
