use super::*;
use std::alloc::{AllocError, Global};
use std::fs;
use std::test::Fail;

fn file(alloc: Global, name: &str, bytes: &[u8]) -> Result<File, AllocError> {
    Ok(File {
        name: String::from_str(alloc, name)?,
        bytes: bytes.to_vec(alloc)?,
    })
}

#[test]
fn a_shelf_in_memory_gives_pieces(rt: HostRuntime) -> Result<(), Fail> {
    let alloc = rt.alloc();
    let files = vec![in alloc; file(alloc, "a", b"hello")?, file(alloc, "a", b"other")?]?;
    let mut shelf = MemShelf::new(alloc, files, vec![in alloc; 2]?, 3)?;
    let mut piece = [0u8; 8];
    assert_eq!(rt; shelf.read("a", 0, &mut piece)?, 3);
    assert_eq!(rt; &piece[..3], b"hel".as_slice());
    assert!(rt; shelf.read("a", 3, &mut piece).is_err());
    assert_eq!(rt; shelf.read("a", 3, &mut piece)?, 2);
    assert_eq!(rt; &piece[..2], b"lo".as_slice());
    assert_eq!(rt; shelf.read("a", 5, &mut piece)?, 0);
    assert!(rt; shelf.read("b", 0, &mut piece).is_err());
    Ok(())
}

#[test]
fn a_text_is_read_whole(rt: HostRuntime) -> Result<(), Fail> {
    let alloc = rt.alloc();
    let files = vec![in alloc; file(alloc, "topology", b"domain d")?]?;
    let mut shelf = MemShelf::new(alloc, files, vec![in alloc; 14]?, 1)?;
    let whole = read_all(alloc, &mut shelf, "topology", 100)?;
    assert_eq!(rt; whole.as_slice(), b"domain d".as_slice());
    let front = read_all(alloc, &mut shelf, "topology", 3)?;
    assert_eq!(rt; front.as_slice(), b"dom".as_slice());
    assert!(rt;
        matches!(
            read_all(alloc, &mut shelf, "topology", 3),
            Err(ReadEnd::Failed)
        )
    );
    assert!(rt;
        matches!(
            read_all(alloc, &mut shelf, "schedule", 3),
            Err(ReadEnd::Failed)
        )
    );
    Ok(())
}

#[test]
fn a_sink_in_memory_takes_pieces(rt: HostRuntime) -> Result<(), Fail> {
    let alloc = rt.alloc();
    let mut sink = MemSink::new(alloc, 12, vec![in alloc; 4]?, 5)?;
    put_all(&mut sink, b"hello world")?;
    assert_eq!(rt; sink.taken(), b"hello world".as_slice());
    assert!(rt; put_all(&mut sink, b"!!").is_err());
    assert_eq!(rt; sink.taken(), b"hello world".as_slice());
    assert!(rt; put_all(&mut sink, b"!!").is_err());
    assert_eq!(rt; sink.taken(), b"hello world!".as_slice());
    Ok(())
}

#[test]
fn a_file_is_read(rt: HostRuntime) -> Result<(), Fail> {
    let alloc = rt.alloc();
    let name = "aip_io_text";
    fs::write(&rt, name, b"router r d open")?;
    let mut shelf = DirShelf::new(&rt);
    let text = read_all(alloc, &mut shelf, name, 100)?;
    assert_eq!(rt; text.as_slice(), b"router r d open".as_slice());
    let mut piece = [0u8; 4];
    assert_eq!(rt; shelf.read(name, 7, &mut piece)?, 4);
    assert_eq!(rt; piece.as_slice(), b"r d ".as_slice());
    assert!(rt; shelf.read("aip_io_absent", 0, &mut piece).is_err());
    fs::remove_file(&rt, name)?;
    Ok(())
}

#[test]
fn the_standard_output_takes_bytes(rt: HostRuntime) -> Result<(), Fail> {
    put_all(&mut StdSink::new(&rt), b"a line\n")?;
    Ok(())
}
