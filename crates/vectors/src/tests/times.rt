// Instants and their digits, in both directions, from another implementation of the calendar.
use calendar::{read_timestamp, write_timestamp};
use std::test::Fail;

const TIMES: [(&'static [u8], u64); 20] = [
    (b"19700101000000000", 0),
    (b"19700101000000001", 1),
    (b"19701231235959999", 31_535_999_999),
    (b"19710101000000000", 31_536_000_000),
    (b"19720228235959999", 68_169_599_999),
    (b"19720229000000000", 68_169_600_000),
    (b"19720301000000000", 68_256_000_000),
    (b"19991231235959999", 946_684_799_999),
    (b"20000229120000500", 951_825_600_500),
    (b"20000301000000000", 951_868_800_000),
    (b"20040229235959000", 1_078_099_199_000),
    (b"20261117225600123", 1_794_956_160_123),
    (b"20380119031408000", 2_147_483_648_000),
    (b"20960229060708009", 3_981_334_028_009),
    (b"21000228235959999", 4_107_542_399_999),
    (b"21000301000000000", 4_107_542_400_000),
    (b"24000229000000000", 13_574_563_200_000),
    (b"40000630102030400", 64_076_264_430_400),
    (b"99990101000000000", 253_370_764_800_000),
    (b"99991231235959999", 253_402_300_799_999),
];

#[test]
fn digits_of_instants(rt: HostRuntime) -> Result<(), Fail> {
    for (digits, instant) in &TIMES {
        assert_eq!(rt; read_timestamp(digits), Some(*instant), "{instant}");
        let written = write_timestamp(*instant).ok_or_else(|| Fail::new("not written"))?;
        assert_eq!(rt; written.as_slice(), *digits, "{instant}");
    }
    assert!(rt;
        write_timestamp(253_402_300_800_000).is_none() && write_timestamp(u64::MAX).is_none()
    );
    Ok(())
}

const NO_TIMES: [&'static [u8]; 19] = [
    b"19691231235959999",
    b"00000101000000000",
    b"20010229000000000",
    b"21000229000000000",
    b"20230230000000000",
    b"20230431000000000",
    b"20231301000000000",
    b"20230001000000000",
    b"20230100000000000",
    b"20230132000000000",
    b"20230101240000000",
    b"20230101006000000",
    b"20230101000060000",
    b"2023010100000000",
    b"202301010000000000",
    b"2023010100000000x",
    b"2023-1-0100000000",
    b" 2023010100000000",
    b"",
];

#[test]
fn bytes_that_are_no_instant(rt: HostRuntime) {
    for (i, digits) in NO_TIMES.iter().enumerate() {
        assert_eq!(rt; read_timestamp(digits), None, "{i}");
    }
}
