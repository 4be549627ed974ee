use super::*;
use std::test::Fail;

#[test]
fn numbers_have_one_spelling(rt: HostRuntime) -> Result<(), Fail> {
    assert_eq!(rt; read_number(b"0"), Some(0));
    assert_eq!(rt; read_number(b"40"), Some(40));
    assert_eq!(rt; read_number(b"999999999999999"), Some(999999999999999));
    assert_eq!(rt; read_number(b"1000000000000000"), None);
    assert_eq!(rt; read_number(b"01"), None);
    assert_eq!(rt; read_number(b"+1"), None);
    assert_eq!(rt; read_number(b""), None);
    assert_eq!(rt; read_u64(b"0"), Some(0));
    assert_eq!(rt; read_u64(b"18446744073709551615"), Some(u64::MAX));
    assert_eq!(rt; read_u64(b"18446744073709551616"), None);
    assert_eq!(rt; read_u64(b"100000000000000000000"), None);
    assert_eq!(rt; read_u64(b"00"), None);
    assert_eq!(rt; read_u64(b"+1"), None);
    let mut line = Vec::new(rt.alloc());
    push_text(&mut line, b"tick")?;
    push_space(&mut line)?;
    push_number(&mut line, 600)?;
    push_word(&mut line, b"r-1")?;
    assert_eq!(rt; line.as_slice(), b"tick 600 r-1".as_slice());
    Ok(())
}

#[test]
fn bytes_are_hex_in_lower_case(rt: HostRuntime) -> Result<(), Fail> {
    let some = read_bytes(rt.alloc(), b"00ff1a")?.ok_or("bytes")?;
    assert_eq!(rt; some.as_slice(), b"\x00\xff\x1a".as_slice());
    let none = read_bytes(rt.alloc(), b"-")?.ok_or("no bytes")?;
    assert!(rt; none.as_slice().is_empty());
    assert!(rt; read_hex(rt.alloc(), b"-")?.is_none());
    assert!(rt; read_bytes(rt.alloc(), b"")?.is_none());
    assert!(rt; read_bytes(rt.alloc(), b"0")?.is_none());
    assert!(rt; read_bytes(rt.alloc(), b"0A")?.is_none());
    let mut line = Vec::new(rt.alloc());
    push_bytes(&mut line, b"")?;
    push_bytes(&mut line, b"\x0f")?;
    push_hex(&mut line, b"\xa0\x01")?;
    assert_eq!(rt; line.as_slice(), b"-0fa001".as_slice());
    Ok(())
}

#[test]
fn hex_of_a_fixed_length(rt: HostRuntime) -> Result<(), Fail> {
    let ad = read_id(b"0111111111111111111111111111111111111100").ok_or("20 bytes")?;
    assert_eq!(rt; ad.bytes[0], 1);
    assert_eq!(rt; ad.bytes[18], 17);
    let id: [u8; 19] = read_hex_array(b"01aaaaaaaaaaaaaaaaaaaaaaaaaaaaaaaaaaaa").ok_or("19 bytes")?;
    assert_eq!(rt; id[18], 170);
    let seed = b"0000000000000000000000000000000000000000000000000000000000000009";
    let bytes: [u8; 32] = read_hex_array(seed).ok_or("32 bytes")?;
    assert_eq!(rt; bytes[31], 9);
    assert!(rt; read_id(seed).is_none());
    Ok(())
}

#[test]
fn words_have_one_space_between_them(rt: HostRuntime) -> Result<(), Fail> {
    let (router, in_port, out_port) = three_words(b"r 1 22").ok_or("three")?;
    assert_eq!(rt; router, b"r".as_slice());
    assert_eq!(rt; in_port, b"1".as_slice());
    assert_eq!(rt; out_port, b"22".as_slice());
    assert!(rt; four_words(b"r 1 22").is_none());
    let (.., fourth) = four_words(b"a b c d").ok_or("four")?;
    assert_eq!(rt; fourth, b"d".as_slice());
    let (.., fifth) = five_words(b"a b c  d").ok_or("five")?;
    assert_eq!(rt; fifth, b"d".as_slice());
    let name = read_name(b"r-1").ok_or("a name")?;
    assert_eq!(rt; name.bytes(), b"r-1".as_slice());
    assert!(rt; read_name(b"1r").is_none());
    Ok(())
}

#[test]
fn lines_end_at_line_feeds(rt: HostRuntime) -> Result<(), Fail> {
    let first = next_line(b"tick 1\n# end").ok_or("a line")?;
    assert_eq!(rt; first.line, b"tick 1".as_slice());
    assert!(rt; first.ended && !is_skipped(first.line));
    let last = next_line(first.rest).ok_or("a last line")?;
    assert_eq!(rt; last.line, b"# end".as_slice());
    assert!(rt; !last.ended && is_skipped(last.line));
    assert!(rt; next_line(last.rest).is_none());
    assert!(rt; is_skipped(b"") && has_carriage_return(b"tick 1\r"));
    let (word, rest) = cut(b"tick 1").ok_or("a space")?;
    assert_eq!(rt; word, b"tick".as_slice());
    assert_eq!(rt; rest, b"1".as_slice());
    assert!(rt; cut_at(b"host", b'/').is_none());
    Ok(())
}
