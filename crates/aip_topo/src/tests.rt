use super::*;
use aip_text::{push_hex, push_number, push_text, read_hex_array};
use lms_core::Width;
use std::alloc::{AllocError, Global};
use std::test::Fail;

/// A network of one domain, one router and two hosts.
const SMALL: &[u8] =
    b"domain d id 0111111111111111111111111111111111111100\nrouter r d open 0000000000000000000000000000000000000000000000000000000000000000\nhost a r plain id 01aaaaaaaaaaaaaaaaaaaaaaaaaaaaaaaaaaaa00\nhost b r plain id 01bbbbbbbbbbbbbbbbbbbbbbbbbbbbbbbbbbbb00\n";

/// Its canonical text.
const SMALL_WHOLE: &[u8] =
    b"set accept 600\nset cache 64\nset epoch 60\nset filter 16\nset log 128\nset threshold 8\nset wild 600\nset wildcache 8\ndomain d id 0111111111111111111111111111111111111100\nrouter r d open 0000000000000000000000000000000000000000000000000000000000000000\nhost a r plain id 01aaaaaaaaaaaaaaaaaaaaaaaaaaaaaaaaaaaa00\nhost b r plain id 01bbbbbbbbbbbbbbbbbbbbbbbbbbbbbbbbbbbb00\n";

fn refusal(alloc: Global, text: &[u8]) -> Option<(u32, u64)> {
    match read(alloc, text) {
        Err(TopoEnd::Line { line, fault }) => Some((line, fault.number())),
        _ => None,
    }
}

#[test]
fn a_small_network_is_read_and_written(rt: HostRuntime) -> Result<(), Fail> {
    let network = read(rt.alloc(), SMALL)?;
    assert_eq!(rt; network.routers.as_slice().len(), 1);
    assert_eq!(rt; network.parts.as_slice().len(), 2);
    let text = write(rt.alloc(), &network)?;
    assert_eq!(rt; text.as_slice(), SMALL_WHOLE);
    let again = read(rt.alloc(), text.as_slice())?;
    assert_eq!(rt; again.settings, network.settings);
    assert_eq!(rt; again.routers.as_slice(), network.routers.as_slice());
    let same = write(rt.alloc(), &again)?;
    assert_eq!(rt; same.as_slice(), SMALL_WHOLE);
    Ok(())
}

#[test]
fn an_empty_text_is_an_empty_network(rt: HostRuntime) -> Result<(), Fail> {
    let network = read(rt.alloc(), b"")?;
    assert_eq!(rt; network.settings.accept, 600);
    assert!(rt; network.domains.as_slice().is_empty());
    assert!(rt; network.parts.as_slice().is_empty());
    Ok(())
}

#[test]
fn lines_outside_the_grammar(rt: HostRuntime) -> Result<(), Fail> {
    assert_eq!(rt; refusal(rt.alloc(), b"set cash 1\n"), Some((1, 1)));
    // Skipped lines count.
    assert_eq!(rt;
        refusal(rt.alloc(), b"\n# a comment\nset cache  1"),
        Some((3, 1))
    );
    // A carriage return in a skipped line.
    assert_eq!(rt; refusal(rt.alloc(), b"#\r\n"), Some((1, 1)));
    assert_eq!(rt;
        refusal(
            rt.alloc(),
            b"domain d seed W3 H5 0000000000000000000000000000000000000000000000000000000000000000\n"
        ),
        Some((1, 1))
    );
    Ok(())
}

#[test]
fn names_and_settings_twice(rt: HostRuntime) -> Result<(), Fail> {
    // The value is out of range as well.
    assert_eq!(rt;
        refusal(rt.alloc(), b"set cache 1\nset cache 0\n"),
        Some((2, 2))
    );
    // The id is that of the first domain as well.
    assert_eq!(rt;
        refusal(
            rt.alloc(),
            b"domain d id 0111111111111111111111111111111111111100\ndomain d id 0111111111111111111111111111111111111100\n"
        ),
        Some((2, 2))
    );
    // No domain has the second name.
    assert_eq!(rt;
        refusal(
            rt.alloc(),
            b"domain d id 0111111111111111111111111111111111111100\nrouter r d open 0000000000000000000000000000000000000000000000000000000000000000\nrouter r e open 0000000000000000000000000000000000000000000000000000000000000000\n"
        ),
        Some((3, 2))
    );
    Ok(())
}

#[test]
fn names_that_are_unknown(rt: HostRuntime) -> Result<(), Fail> {
    assert_eq!(rt;
        refusal(
            rt.alloc(),
            b"domain d id 0111111111111111111111111111111111111100\nrouter r e open 0000000000000000000000000000000000000000000000000000000000000000\n"
        ),
        Some((2, 3))
    );
    // It would be a link from a router to itself as well.
    assert_eq!(rt;
        refusal(rt.alloc(), b"link x x trusted checked\n"),
        Some((1, 3))
    );
    Ok(())
}

#[test]
fn values_out_of_range(rt: HostRuntime) -> Result<(), Fail> {
    assert_eq!(rt; refusal(rt.alloc(), b"set filter 257\n"), Some((1, 4)));
    assert_eq!(rt; refusal(rt.alloc(), b"set wild 4294967296\n"), Some((1, 4)));
    assert_eq!(rt;
        refusal(
            rt.alloc(),
            b"domain d id 0011111111111111111111111111111111111100\n"
        ),
        Some((1, 4))
    );
    assert_eq!(rt;
        refusal(
            rt.alloc(),
            b"domain d id 0111111111111111111111111111111111111101\n"
        ),
        Some((1, 4))
    );
    assert_eq!(rt;
        refusal(
            rt.alloc(),
            b"domain d id 0111111111111111111111111111111111111100\nrouter r d open 0000000000000000000000000000000000000000000000000000000000000000\nlink r r trusted checked\n"
        ),
        Some((3, 4))
    );
    Ok(())
}

#[test]
fn ids_of_others(rt: HostRuntime) -> Result<(), Fail> {
    assert_eq!(rt;
        refusal(
            rt.alloc(),
            b"domain d id 0111111111111111111111111111111111111100\ndomain e id 0111111111111111111111111111111111111100\n"
        ),
        Some((2, 5))
    );
    // Another interface of the same key.
    assert_eq!(rt;
        refusal(
            rt.alloc(),
            b"domain d id 0111111111111111111111111111111111111100\nrouter r d open 0000000000000000000000000000000000000000000000000000000000000000\nhost a r plain id 01aaaaaaaaaaaaaaaaaaaaaaaaaaaaaaaaaaaa00\nhost c r guarded id 01aaaaaaaaaaaaaaaaaaaaaaaaaaaaaaaaaaaa07\n"
        ),
        Some((4, 5))
    );
    Ok(())
}

// So many domains, and then one more line.
fn domains_and(alloc: Global, count: u8, line: &[u8]) -> Result<Vec<u8>, AllocError> {
    let mut text = Vec::new(alloc);
    for i in 0..count {
        push_text(&mut text, b"domain d")?;
        push_number(&mut text, i as u64)?;
        push_text(&mut text, b" id 01")?;
        push_hex(&mut text, &[i; 18])?;
        push_text(&mut text, b"00\n")?;
    }
    push_text(&mut text, line)?;
    Ok(text)
}

#[test]
fn too_many_domains(rt: HostRuntime) -> Result<(), Fail> {
    let whole = domains_and(rt.alloc(), 64, b"")?;
    assert_eq!(rt; read(rt.alloc(), &whole)?.domains.as_slice().len(), 64);
    // The name and the id are those of the first domain as well.
    let more = domains_and(
        rt.alloc(),
        64,
        b"domain d0 id 0100000000000000000000000000000000000000\n",
    )?;
    assert_eq!(rt; refusal(rt.alloc(), &more), Some((65, 6)));
    let more = domains_and(rt.alloc(), 65, b"")?;
    assert_eq!(rt; refusal(rt.alloc(), &more), Some((65, 6)));
    Ok(())
}

#[test]
fn lines_that_are_too_long(rt: HostRuntime) -> Result<(), Fail> {
    // It has carriage returns as well.
    let line = vec![in rt.alloc(); 13; 20_001]?;
    assert_eq!(rt; refusal(rt.alloc(), &line), Some((1, 7)));
    // The last line feed lies past the first 1,048,576 bytes.
    let feeds = vec![in rt.alloc(); 10; 1_048_577]?;
    assert_eq!(rt; refusal(rt.alloc(), &feeds), Some((1_048_577, 7)));
    assert_eq!(rt; feeds.len(), MOST_READ);
    assert!(rt; read(rt.alloc(), &feeds[1..]).is_ok());
    Ok(())
}

#[test]
fn lines_have_one_spelling(rt: HostRuntime) -> Result<(), Fail> {
    let link = read_line(b"link r s trusted checked");
    assert!(rt;
        matches!(
            link,
            Some(Line::Link {
                a_trusts: true,
                b_trusts: false,
                ..
            })
        )
    );
    assert!(rt; read_line(b"link r s trusted checked x").is_none());
    assert!(rt; read_line(b"link r s trusted  checked").is_none());
    let seed =
        b"domain d seed W8 H10 3131313131313131313131313131313131313131313131313131313131313131";
    assert!(rt;
        matches!(
            read_line(seed),
            Some(Line::Domain {
                origin: Origin::Seed {
                    width: Width::W8,
                    ..
                },
                ..
            })
        )
    );
    let wide =
        b"domain d seed 16 H10 3131313131313131313131313131313131313131313131313131313131313131";
    assert!(rt; read_line(wide).is_none());
    Ok(())
}

/// A network in which a domain and two hosts are given by the seeds of their keys.
const KEYED: &[u8] =
    b"domain d seed W4 H5 3131313131313131313131313131313131313131313131313131313131313131\ndomain e id 0111111111111111111111111111111111111100\nrouter r d open 0000000000000000000000000000000000000000000000000000000000000000\nhost a r guarded seed W4 H5 0 0101010101010101010101010101010101010101010101010101010101010101\nhost b r plain seed W1 H5 255 1515151515151515151515151515151515151515151515151515151515151515\nhost c r plain id 01cccccccccccccccccccccccccccccccccccc07\n";

/// Its canonical text.
const KEYED_WHOLE: &[u8] =
    b"set accept 600\nset cache 64\nset epoch 60\nset filter 16\nset log 128\nset threshold 8\nset wild 600\nset wildcache 8\ndomain d seed W4 H5 3131313131313131313131313131313131313131313131313131313131313131\ndomain e id 0111111111111111111111111111111111111100\nrouter r d open 0000000000000000000000000000000000000000000000000000000000000000\nhost a r guarded seed W4 H5 0 0101010101010101010101010101010101010101010101010101010101010101\nhost b r plain seed W1 H5 255 1515151515151515151515151515151515151515151515151515151515151515\nhost c r plain id 01cccccccccccccccccccccccccccccccccccc07\n";

fn eid_at(parts: &[Part], place: usize) -> Option<[u8; 20]> {
    match parts.get(place) {
        Some(Part::Host(host)) => Some(host.eid.bytes),
        _ => None,
    }
}

fn ad_at(domains: &[Domain], place: usize) -> Option<[u8; 20]> {
    match domains.get(place) {
        Some(domain) => Some(domain.ad.bytes),
        None => None,
    }
}

#[test]
fn ids_of_keys(rt: HostRuntime) -> Result<(), Fail> {
    let network = read(rt.alloc(), KEYED)?;
    assert_eq!(rt;
        ad_at(network.domains.as_slice(), 0),
        read_hex_array::<20>(b"01fd22979883654eeff4dbd61711167a3467d700")
    );
    assert_eq!(rt;
        eid_at(network.parts.as_slice(), 0),
        read_hex_array::<20>(b"014b9c00c66d49570c20a6f6d68acc494fcddb00")
    );
    assert_eq!(rt;
        eid_at(network.parts.as_slice(), 1),
        read_hex_array::<20>(b"013c14e5fbf1c85e4c0723b642b58cc8aeca3eff")
    );
    Ok(())
}

#[test]
fn a_network_with_keys_is_written_and_read_back(rt: HostRuntime) -> Result<(), Fail> {
    let network = read(rt.alloc(), KEYED)?;
    let text = write(rt.alloc(), &network)?;
    assert_eq!(rt; text.as_slice(), KEYED_WHOLE);
    let again = read(rt.alloc(), text.as_slice())?;
    assert_eq!(rt;
        eid_at(again.parts.as_slice(), 1),
        eid_at(network.parts.as_slice(), 1)
    );
    let same = write(rt.alloc(), &again)?;
    assert_eq!(rt; same.as_slice(), KEYED_WHOLE);
    Ok(())
}

#[test]
fn keys_of_others(rt: HostRuntime) -> Result<(), Fail> {
    // Two hosts with one key.
    assert_eq!(rt;
        refusal(
            rt.alloc(),
            b"domain d id 0111111111111111111111111111111111111100\nrouter r d open 0000000000000000000000000000000000000000000000000000000000000000\nhost a r plain seed W4 H5 0 0101010101010101010101010101010101010101010101010101010101010101\nhost b r plain seed W4 H5 0 0101010101010101010101010101010101010101010101010101010101010101\n"
        ),
        Some((4, 5))
    );
    // Two domains with one identifier, and different ids.
    assert_eq!(rt;
        refusal(
            rt.alloc(),
            b"domain d seed W4 H5 0101010101010101010101010101010101010101010101010101010101010101\ndomain e seed W1 H5 0101010101010101010101010101010101010101010101010101010101010101\n"
        ),
        Some((2, 5))
    );
    // A domain and a host.
    assert_eq!(rt;
        refusal(
            rt.alloc(),
            b"domain d seed W1 H5 0101010101010101010101010101010101010101010101010101010101010101\nrouter r d open 0000000000000000000000000000000000000000000000000000000000000000\nhost a r plain seed W1 H5 3 0101010101010101010101010101010101010101010101010101010101010101\n"
        ),
        Some((3, 5))
    );
    Ok(())
}

#[test]
fn given_ids_and_made_ones(rt: HostRuntime) -> Result<(), Fail> {
    // An id that was given has the key identifier of a key that was made, whichever comes first.
    assert_eq!(rt;
        refusal(
            rt.alloc(),
            b"domain d id 0111111111111111111111111111111111111100\nrouter r d open 0000000000000000000000000000000000000000000000000000000000000000\nhost a r plain seed W4 H5 0 0101010101010101010101010101010101010101010101010101010101010101\nhost b r plain id 014b9c00c66d49570c20a6f6d68acc494fcddb07\n"
        ),
        Some((4, 5))
    );
    assert_eq!(rt;
        refusal(
            rt.alloc(),
            b"domain d id 0111111111111111111111111111111111111100\nrouter r d open 0000000000000000000000000000000000000000000000000000000000000000\nhost b r plain id 014b9c00c66d49570c20a6f6d68acc494fcddb07\nhost a r plain seed W4 H5 0 0101010101010101010101010101010101010101010101010101010101010101\n"
        ),
        Some((4, 5))
    );
    assert_eq!(rt;
        refusal(
            rt.alloc(),
            b"domain d seed W4 H5 3131313131313131313131313131313131313131313131313131313131313131\ndomain e id 01fd22979883654eeff4dbd61711167a3467d700\n"
        ),
        Some((2, 5))
    );
    // A domain and a host may have one id.
    let shared = read(
        rt.alloc(),
        b"domain d id 0111111111111111111111111111111111111100\nrouter r d open 0000000000000000000000000000000000000000000000000000000000000000\nhost a r plain id 0111111111111111111111111111111111111100\n",
    )?;
    assert_eq!(rt; shared.parts.as_slice().len(), 1);
    Ok(())
}

#[test]
fn interfaces_out_of_range(rt: HostRuntime) -> Result<(), Fail> {
    // The key is that of another host as well.
    assert_eq!(rt;
        refusal(
            rt.alloc(),
            b"domain d id 0111111111111111111111111111111111111100\nrouter r d open 0000000000000000000000000000000000000000000000000000000000000000\nhost a r plain seed W1 H5 0 0101010101010101010101010101010101010101010101010101010101010101\nhost b r plain seed W1 H5 256 0101010101010101010101010101010101010101010101010101010101010101\n"
        ),
        Some((4, 4))
    );
    // The router is unknown as well.
    assert_eq!(rt;
        refusal(
            rt.alloc(),
            b"domain d id 0111111111111111111111111111111111111100\nrouter r d open 0000000000000000000000000000000000000000000000000000000000000000\nhost a s plain seed W1 H5 256 0101010101010101010101010101010101010101010101010101010101010101\n"
        ),
        Some((3, 3))
    );
    // Sixteen digits, and a height that is none.
    assert_eq!(rt;
        refusal(
            rt.alloc(),
            b"domain d id 0111111111111111111111111111111111111100\nrouter r d open 0000000000000000000000000000000000000000000000000000000000000000\nhost a r plain seed W1 H5 1000000000000000 0101010101010101010101010101010101010101010101010101010101010101\n"
        ),
        Some((3, 1))
    );
    assert_eq!(rt;
        refusal(
            rt.alloc(),
            b"domain d seed W4 H15 0101010101010101010101010101010101010101010101010101010101010101\n"
        ),
        Some((1, 1))
    );
    Ok(())
}
