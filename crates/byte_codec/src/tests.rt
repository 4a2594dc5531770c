use crate::{
    Blob, HexError, LebError, Reader, Short, Writer, hex_bytes, hex_text, leb_read, leb_write,
};
use std::process::Abort;
use std::test::Fail;

#[test]
fn fields_are_read_as_they_were_written(rt: HostRuntime) -> Result<(), Fail> {
    let mut writer = Writer::with_capacity(rt.alloc(), 4)?;
    writer.u8(7)?;
    writer.be16(0x0102)?;
    writer.be32(0x0102_0304)?;
    writer.be64(0x0102_0304_0506_0708)?;
    writer.bytes(b"\x02hi")?;
    writer.bytes(b"\x00\x01!")?;
    writer.bytes(b"\x00\x00\x00\x02ok..")?;
    let text = writer.into_blob();
    let want =
        b"\x07\x01\x02\x01\x02\x03\x04\x01\x02\x03\x04\x05\x06\x07\x08\x02hi\x00\x01!\x00\x00\x00\x02ok..";
    assert_eq!(rt; text.bytes(), want.as_slice());
    let mut reader = Reader::new(text.bytes());
    assert_eq!(rt; reader.u8(), Ok(7));
    assert_eq!(rt; reader.be16(), Ok(0x0102));
    assert_eq!(rt; reader.be32(), Ok(0x0102_0304));
    assert_eq!(rt; reader.be64(), Ok(0x0102_0304_0506_0708));
    assert_eq!(rt; reader.string8(), Ok(b"hi".as_slice()));
    assert_eq!(rt; reader.string16(), Ok(b"!".as_slice()));
    assert_eq!(rt; reader.string32(), Ok(b"ok".as_slice()));
    assert_eq!(rt; reader.at(), 27);
    assert_eq!(rt; reader.left(), 2);
    assert_eq!(rt; reader.rest(), b"..".as_slice());
    assert_eq!(rt; reader.bytes(2), Ok(b"..".as_slice()));
    assert_eq!(rt; reader.u8(), Err(Short));
    Ok(())
}

#[test]
fn a_cut_field_leaves_the_reader(rt: HostRuntime) {
    let mut reader = Reader::new(b"\x00\x02\x03");
    assert_eq!(rt; reader.be32(), Err(Short));
    assert_eq!(rt; reader.be64(), Err(Short));
    assert_eq!(rt; reader.bytes(4), Err(Short));
    assert_eq!(rt; reader.string16(), Err(Short));
    assert_eq!(rt; reader.string32(), Err(Short));
    assert_eq!(rt; reader.at(), 0);
    assert_eq!(rt; reader.be16(), Ok(2));
    assert_eq!(rt; reader.be16(), Err(Short));
    assert_eq!(rt; reader.string8(), Err(Short));
    assert_eq!(rt; reader.at(), 2);
}

fn spelled(rt: &impl Abort, text: &[u8], want: Result<u64, LebError>, at: usize) {
    let mut reader = Reader::new(text);
    let read = leb_read(&mut reader);
    assert_eq!(rt; read, want);
    assert_eq!(rt; reader.at(), at);
}

#[test]
fn leb128_numbers_are_the_shortest(rt: HostRuntime) -> Result<(), Fail> {
    let greatest = b"\xff\xff\xff\xff\xff\xff\xff\xff\xff\x01";
    for (number, text) in [
        (0, b"\x00".as_slice()),
        (127, b"\x7f".as_slice()),
        (128, b"\x80\x01".as_slice()),
        (300, b"\xac\x02".as_slice()),
        (624_485, b"\xe5\x8e\x26".as_slice()),
        (u64::MAX, greatest.as_slice()),
    ] {
        let mut writer = Writer::new(rt.alloc());
        leb_write(number, &mut writer)?;
        assert_eq!(rt; writer.into_blob().bytes(), text);
        spelled(&rt, text, Ok(number), text.len());
    }
    spelled(&rt, b"\x05\x05", Ok(5), 1);
    spelled(&rt, b"", Err(LebError::Short), 0);
    spelled(&rt, b"\x80", Err(LebError::Short), 0);
    spelled(&rt, &greatest[..9], Err(LebError::Short), 0);
    spelled(&rt, b"\x80\x00", Err(LebError::Long), 0);
    spelled(&rt, b"\xff\x80\x00", Err(LebError::Long), 0);
    spelled(
        &rt,
        b"\xff\xff\xff\xff\xff\xff\xff\xff\xff\x02",
        Err(LebError::Long),
        0,
    );
    spelled(
        &rt,
        b"\xff\xff\xff\xff\xff\xff\xff\xff\xff\x81",
        Err(LebError::Long),
        0,
    );
    Ok(())
}

#[test]
fn hexadecimal_text_is_lower_case_and_even(rt: HostRuntime) -> Result<(), Fail> {
    for (bytes, text) in [
        (b"".as_slice(), b"".as_slice()),
        (b"\x00\x7f\xff".as_slice(), b"007fff".as_slice()),
        (
            b"\x01\x23\x45\x67\x89\xab\xcd\xef".as_slice(),
            b"0123456789abcdef".as_slice(),
        ),
    ] {
        assert_eq!(rt; hex_text(rt.alloc(), bytes)?.bytes(), text);
        let back = hex_bytes(rt.alloc(), text).expect(&rt, "hexadecimal");
        assert_eq!(rt; back.bytes(), bytes);
    }
    for text in [
        b"0".as_slice(),
        b"000".as_slice(),
        b"0A".as_slice(),
        b"0g".as_slice(),
        b"-".as_slice(),
    ] {
        let error = hex_bytes(rt.alloc(), text).err();
        assert_eq!(rt; error, Some(HexError::Bad));
    }
    Ok(())
}

#[test]
fn byte_strings_compare_by_their_bytes(rt: HostRuntime) -> Result<(), Fail> {
    let one = Blob::from_slice(rt.alloc(), b"one")?;
    let same = one.copy(rt.alloc())?;
    let other = Blob::from_vec(b"two".to_vec(rt.alloc())?);
    assert!(rt; one == same);
    assert!(rt; one != other);
    assert_eq!(rt; other.bytes(), b"two".as_slice());
    Ok(())
}
