// SHA-256 against another implementation, the practice hash by hand, and which fulfilments open a condition.
use condition::fulfilment::fulfils;
use condition::interface::ConditionHash;
use condition::practice::Practice;
use condition::sha256::{Sha256, digest};
use std::test::Fail;

// 32 bytes and their SHA-256, both in hexadecimal: all bits 0, all 1, one bit set, ascending and descending bytes, the
// 32-byte message of NIST's test vectors (the ninth), and others.
const DIGESTS: [(&'static str, &'static str); 24] = [
    (
        "0000000000000000000000000000000000000000000000000000000000000000",
        "66687aadf862bd776c8fc18b8e9f8e20089714856ee233b3902a591d0d5f2925",
    ),
    (
        "ffffffffffffffffffffffffffffffffffffffffffffffffffffffffffffffff",
        "af9613760f72635fbdb44a5a0a63c39f12af30f950a6ee5c971be188e89c4051",
    ),
    (
        "8000000000000000000000000000000000000000000000000000000000000000",
        "84b3f13b0a4fbcce4c3f811e0313e00dcbd27431c229eff576598be8d1afb848",
    ),
    (
        "0100000000000000000000000000000000000000000000000000000000000000",
        "01d0fabd251fcbbe2b93b4b927b26ad2a1a99077152e45ded1e678afa45dbec5",
    ),
    (
        "0000000000000000000000000000000000000000000000000000000000000001",
        "ec4916dd28fc4c10d78e287ca5d9cc51ee1ae73cbfde08c6b37324cbfaac8bc5",
    ),
    (
        "0000000000000000000000000000000000000000000000000000000000000080",
        "63794a3bf8875ac2c32ba6238d27e7e15e56a3b794b8d2d6aec82faef2360e3a",
    ),
    (
        "000102030405060708090a0b0c0d0e0f101112131415161718191a1b1c1d1e1f",
        "630dcd2966c4336691125448bbb25b4ff412a49c732db2c8abc1b8581bd710dd",
    ),
    (
        "1f1e1d1c1b1a191817161514131211100f0e0d0c0b0a09080706050403020100",
        "69c55c9002eb8c7a4e75d0b49629c4cf83d12cfb56670a8cd6e2db1491a996c4",
    ),
    (
        "09fc1accc230a205e4a208e64a8f204291f581a12756392da4b8c0cf5ef02b95",
        "4f44c1c7fbebb6f9601829f3897bfd650c56fa07844be76489076356ac1886a4",
    ),
    (
        "5a5a5a5a5a5a5a5a5a5a5a5a5a5a5a5a5a5a5a5a5a5a5a5a5a5a5a5a5a5a5a5a",
        "60bf07c488aad18fda339df07e4fbc47b4f00be71711936f18d04d352ad01890",
    ),
    (
        "aaaaaaaaaaaaaaaaaaaaaaaaaaaaaaaaaaaaaaaaaaaaaaaaaaaaaaaaaaaaaaaa",
        "e0e77a507412b120f6ede61f62295b1a7b2ff19d3dcc8f7253e51663470c888e",
    ),
    (
        "5555555555555555555555555555555555555555555555555555555555555555",
        "84126d0dd850199be29021aadbaee68cb9199047b1cb7ec9894ddb1e3562783c",
    ),
    (
        "7f7f7f7f7f7f7f7f7f7f7f7f7f7f7f7f7f7f7f7f7f7f7f7f7f7f7f7f7f7f7f7f",
        "17a7384bf1c50a94b712ce507c5ccd58638cd091278078c6e7dc00ae0aa152fc",
    ),
    (
        "8080808080808080808080808080808080808080808080808080808080808080",
        "bd75a82b9957d6d043076dea52262635042693f1fe23bcadadaecc908e1e5cc6",
    ),
    (
        "ff00000000000000000000000000000000000000000000000000000000000000",
        "d22f8e3450655784853879c7ecfee4ff36192352f6ffe0d40593dee56f583350",
    ),
    (
        "00000000000000000000000000000000000000000000000000000000000000ff",
        "60f9ca40b771fc97dd45423e98463ab5d5e515ce9b4fdfac5d90be969a8ab030",
    ),
    (
        "0000000000000000000000000000000100000000000000000000000000000000",
        "3269aeb6831504cb8679ea40f749072951eb1728cc5e21e45fd0d6b423f6fa42",
    ),
    (
        "0000000000000000000000000000000080000000000000000000000000000000",
        "d504fd065f8d2bcd3d1d3a4b298328e09f1cb44e3106d156477e992aabe9812c",
    ),
    (
        "ffffffffffffffffffffffffffffffff00000000000000000000000000000000",
        "73a815ee65e4ce2574588678e24eb3929759e50c0994c019817118f61b825b50",
    ),
    (
        "00000000000000000000000000000000ffffffffffffffffffffffffffffffff",
        "a386a11d535d6047c30ecdd1135c508b2812378b2554eeab247b48e712dce009",
    ),
    (
        "e0e1e2e3e4e5e6e7e8e9eaebecedeeeff0f1f2f3f4f5f6f7f8f9fafbfcfdfeff",
        "9432c1a7d343fcfacb164bdc44ff71c1281c004886b1c428419088d06cd3561a",
    ),
    (
        "4142434445464748494a4b4c4d4e4f505152535455565758595a303132333435",
        "5d854a6bcae8dbe496e7040f45d970ce74c9e89200bc2af404159dcf8425ab36",
    ),
    (
        "030a11181f262d343b424950575e656c737a81888f969da4abb2b9c0c7ced5dc",
        "ab5f8b5cb9435354c7b58603592d5faf081e17ceb05f7a7c67f4b666f12ca457",
    ),
    (
        "11308d2801186d00d1e02db88188cd5011104dc88178ad20d1c0ed5801e80d70",
        "b3ea29170a5840dd9d881b96fe06568020d656185b0cf4d8d9dd8aba9dc3b6c3",
    ),
];

// The SHA-256 of the SHA-256 and so on, a thousand times, from 32 zero bytes.
const THOUSANDTH: &'static str = "36c1cb4f826ae42ceba848227e0c5f786178ca9dceca6772e5d728d09c30a2f6";

fn nibble(c: u8) -> Result<u8, Fail> {
    match c {
        b'0'..=b'9' => Ok(c - b'0'),
        b'a'..=b'f' => Ok(c - b'a' + 10),
        _ => Err(Fail::new("no hexadecimal digit")),
    }
}

fn from_hex(text: &str) -> Result<[u8; 32], Fail> {
    let digits = text.as_bytes();
    if digits.len() != 64 {
        return Err(Fail::new("not 64 digits"));
    }
    let mut bytes = [0u8; 32];
    for (byte, pair) in bytes.iter_mut().zip(digits.chunks_exact(2)) {
        let [high, low] = pair else {
            return Err(Fail::new("not two digits"));
        };
        *byte = (nibble(*high)? & 15) * 16 + (nibble(*low)? & 15);
    }
    Ok(bytes)
}

#[test]
fn digests_of_another_implementation(rt: HostRuntime) -> Result<(), Fail> {
    for (input, expected) in &DIGESTS {
        let bytes = from_hex(input)?;
        let hash = from_hex(expected)?;
        assert!(rt; digest(&bytes) == hash, "{input}");
        assert!(rt; Sha256.hash(&bytes) == hash, "{input}");
        assert!(rt; fulfils(&Sha256, &bytes, &hash), "{input}");
    }
    Ok(())
}

fn chained(times: u32) -> [u8; 32] {
    let mut bytes = [0u8; 32];
    for _ in 0..times {
        bytes = digest(&bytes);
    }
    bytes
}

#[test]
fn a_thousand_digests_in_a_chain(rt: HostRuntime) -> Result<(), Fail> {
    let last = chained(1000);
    let expected = from_hex(THOUSANDTH)?;
    assert_eq!(rt; last, expected);
    Ok(())
}

// Byte i is byte 31 - i of the input with the bits of 5A inverted.
#[test]
fn the_practice_hash(rt: HostRuntime) -> Result<(), Fail> {
    let ascending = from_hex("000102030405060708090a0b0c0d0e0f101112131415161718191a1b1c1d1e1f")?;
    let expected = from_hex("45444746414043424d4c4f4e49484b4a55545756515053525d5c5f5e59585b5a")?;
    assert_eq!(rt; Practice.hash(&ascending), expected);
    Ok(())
}

#[test]
fn what_opens_a_condition(rt: HostRuntime) -> Result<(), Fail> {
    let secret = from_hex(DIGESTS[6].0)?;
    let hash = from_hex(DIGESTS[6].1)?;
    assert!(rt; fulfils(&Sha256, &secret, &hash), "the secret");
    assert!(rt; !fulfils(&Sha256, &hash, &secret), "the other way round");
    assert!(rt; !fulfils(&Practice, &secret, &hash), "another hash");
    assert!(rt; !fulfils(&Sha256, &secret[0..31], &hash), "31 bytes");
    assert!(rt;
        !fulfils(&Sha256, &secret, &hash[0..31]),
        "a condition of 31 bytes"
    );
    assert!(rt; !fulfils(&Sha256, b"", b""), "nothing");
    Ok(())
}
