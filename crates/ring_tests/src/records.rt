//! The faults of words, and records with their words.

use crate::checks::check_eq;
use perf_base::Mode;
use ring_spec::Fields;
use sample_records::{
    Record, RecordFault, RecordWords, Trailer, header_of, header_word, lost_record, read_fields,
    read_record, read_trailer, sample_record, words_of,
};
use std::process::Abort;

fn list_of(words: &[u64]) -> RecordWords {
    let mut list = RecordWords::new();
    for word in words {
        if list.len() < 9 {
            list.push(*word);
        }
    }
    list
}

// All bits of PERF_SAMPLE_ that are known.
const ALL: u64 = 0x103c7;

// The first sample of a copy, with all fields.
const SAMPLE_OF_COPY: [u64; 9] = [
    0x0048_0001_0000_0009,
    1,
    0xf0,
    0x0000_0003_0000_0003,
    7,
    1,
    2,
    1,
    5,
];

fn fields_of_copy() -> Fields {
    Fields {
        identifier: 1,
        ip: 0xf0,
        pid: 3,
        tid: 3,
        time: 7,
        id: 1,
        stream_id: 2,
        cpu: 1,
        period: 5,
    }
}

// Checks what is read of words.
fn check_read(rt: &impl Abort, words: &[u64], want: Result<(Record, usize), RecordFault>) {
    assert_eq!(rt; read_record(words), want, "at {words:?}");
}

#[test]
fn faults_go_by_the_words(rt: HostRuntime) {
    let lost = Record::Lost {
        id: 1,
        lost: 2,
        trailer: list_of(&[]),
    };
    let rows: [(&[u64], Result<(Record, usize), RecordFault>); 6] = [
        (&[], Err(RecordFault::Short)),
        (&[0x0010_0002_0000_0008], Err(RecordFault::BadType)),
        (&[0x0010_0003_0000_0009], Err(RecordFault::BadMisc)),
        (&[0x0050_0002_0000_0009], Err(RecordFault::BadSize)),
        (&[0x0010_0002_0000_0009], Err(RecordFault::Short)),
        (&[0x0018_0000_0000_0002, 1, 2], Ok((lost, 3))),
    ];
    for (words, want) in rows {
        check_read(&rt, words, want);
    }
}

#[test]
fn header_has_its_fields(rt: HostRuntime) {
    let header = header_of(0x0048_0001_0000_0009);
    check_eq(&rt, (header.kind, header.misc, header.size), (9, 1, 72));
    check_eq(&rt, header_word(9, 1, 72), 0x0048_0001_0000_0009);
}

#[test]
fn sample_of_copy_is_written_and_read(rt: HostRuntime) {
    let record = sample_record(Mode::Kernel, ALL, &fields_of_copy());
    check_eq(&rt, words_of(&record).as_slice(), SAMPLE_OF_COPY.as_slice());
    check_eq(&rt, read_record(&SAMPLE_OF_COPY), Ok((record, 9)));
    check_eq(&rt, read_fields(&record, ALL), Ok(fields_of_copy()));
    check_eq(&rt, read_fields(&record, 1), Err(RecordFault::BadSize));
    check_eq(&rt, read_trailer(&record, ALL), Err(RecordFault::BadType));
}

#[test]
fn trailer_is_written_and_read(rt: HostRuntime) {
    let fields = Fields {
        time: 2,
        ..fields_of_copy()
    };
    let trailer = Trailer {
        all: true,
        sample: 5,
        fields,
    };
    let record = lost_record(1, 1, &trailer);
    let words = [0x0020_0000_0000_0002, 1, 1, 2];
    check_eq(&rt, words_of(&record).as_slice(), words.as_slice());
    check_eq(&rt, read_record(&words), Ok((record, 4)));
    let read = Fields {
        identifier: 0,
        ip: 0,
        pid: 0,
        tid: 0,
        time: 2,
        id: 0,
        stream_id: 0,
        cpu: 0,
        period: 0,
    };
    check_eq(&rt, read_trailer(&record, 5), Ok(read));
    check_eq(&rt, read_trailer(&record, 0), Err(RecordFault::BadSize));
    check_eq(&rt, read_fields(&record, 5), Err(RecordFault::BadType));
    let bare = lost_record(
        1,
        1,
        &Trailer {
            all: false,
            ..trailer
        },
    );
    check_eq(
        &rt,
        words_of(&bare).as_slice(),
        [0x0018_0000_0000_0002, 1, 1].as_slice(),
    );
}

#[test]
fn high_half_of_processor_is_a_fault(rt: HostRuntime) {
    let record = Record::Sample {
        mode: Mode::User,
        body: list_of(&[0x1_0000_0001]),
    };
    check_eq(&rt, read_fields(&record, 128), Err(RecordFault::BadPad));
    let record = Record::Lost {
        id: 1,
        lost: 1,
        trailer: list_of(&[3, 0x1_0000_0001, 4]),
    };
    check_eq(
        &rt,
        read_trailer(&record, 0x100c0),
        Err(RecordFault::BadPad),
    );
}
