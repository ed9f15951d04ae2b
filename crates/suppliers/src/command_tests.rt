//! Commands read from bytes.
use command::format::Format;
use command::{Command, Reader};
use refusal::Refusal;
use std::test::Fail;

const FORMAT: Format = Format {
    weights: 2,
    rows: 3,
};

#[test]
fn one_of_each(rt: HostRuntime) -> Result<(), Fail> {
    let input = [
        0x4c, 0x01, 0x02, 7, 8, 9, 0x55, 0xff, 0xfe, 0x50, 3, 0x00, 0x05, 0x52, 1, 2, 0x43, 2, 10,
        11, 0x00, 0x05, 0, 0, 3, 0xe8, 0xff, 0xff, 0xff, 0xff, 4, 5, 6,
    ];
    let mut reader = Reader::new(FORMAT, &input);
    assert_eq!(rt;
        reader.next()?,
        Some(Command::Insert {
            accession: 258,
            rows: &[7, 8, 9],
        })
    );
    assert_eq!(rt; reader.next()?, Some(Command::Remove { accession: 65534 }));
    assert_eq!(rt;
        reader.next()?,
        Some(Command::AddPivot {
            channel: 3,
            accession: 5,
        })
    );
    assert_eq!(rt;
        reader.next()?,
        Some(Command::RemovePivot {
            channel: 1,
            pivot: 2,
        })
    );
    assert_eq!(rt;
        reader.next()?,
        Some(Command::Nearest {
            aggregate: 2,
            weights: &[10, 11],
            k: 5,
            radius: 1000,
            budget: 4294967295,
            rows: &[4, 5, 6],
        })
    );
    assert_eq!(rt; reader.next()?, None);
    Ok(())
}

#[test]
fn unknown_letter(rt: HostRuntime) {
    let mut reader = Reader::new(FORMAT, &[0x00, 0x55]);
    assert_eq!(rt; reader.next().err(), Some(Refusal::UnknownCommand));
    assert_eq!(rt; reader.next().err(), Some(Refusal::UnknownCommand));
}

#[test]
fn input_that_ends_too_soon(rt: HostRuntime) -> Result<(), Fail> {
    let whole = [0x43, 2, 10, 11, 0, 5, 0, 0, 3, 0xe8, 0, 0, 0, 9, 4, 5, 6];
    for n in 1..whole.len() {
        let mut reader = Reader::new(FORMAT, &whole[0..n]);
        assert_eq!(rt; reader.next().err(), Some(Refusal::CutShort));
    }
    let mut reader = Reader::new(FORMAT, &whole);
    assert_eq!(rt;
        reader.next()?,
        Some(Command::Nearest {
            aggregate: 2,
            weights: &[10, 11],
            k: 5,
            radius: 1000,
            budget: 9,
            rows: &[4, 5, 6],
        })
    );
    Ok(())
}
