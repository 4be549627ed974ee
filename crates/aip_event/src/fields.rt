ghost use Rattle.std.specs.Prelude.{◌≡◌, ◌++◌, ◌∷◌, Some, None, OnOk, decimal};
ghost use Rattle.aip_text.specs.Fields.{id_word};
ghost use Rattle.aip_text.specs.Words.{bytes_word};
ghost use Rattle.aip_event.specs.Lines.{address_word, key_id_word, target_word};
ghost use Rattle.aip_event.specs.Reading.{address_of, cause_of, key_id_of, reason_of, target_from, target_of};

use crate::event::{Cause, Reason};
use crate::input::Target;
use aip_addr::{Address, Bytes, Id, KeyId, Name};
use aip_text::{
    cut_at, push_bytes, push_hex, push_number, push_space, push_text, push_word, read_hex_array,
    read_id, read_name, read_number,
};
use std::alloc::AllocError;

// ---- reading

pub(crate) fn read_target(word: &[u8]) -> Option<Target>
    ensures { result ≡ target_of word.now }
{
    match cut_at(word, b'/') {
        Some((router, port)) => read_port(router, port),
        None => read_host(word),
    }
}

fn read_port(router: &[u8], port: &[u8]) -> Option<Target>
    ensures { result ≡ target_from router.now (Some (router.now, port.now)) }
{
    let router = read_name(router)?;
    let port = read_number(port)?;
    Some(Target::Port { router, port })
}

fn read_host(word: &[u8]) -> Option<Target>
    ensures { result ≡ target_from word.now None }
{
    let name = read_name(word)?;
    Some(Target::Host { name })
}

pub(crate) fn read_key_id(word: &[u8]) -> Option<KeyId>
    ensures { result ≡ key_id_of word.now }
{
    let bytes = read_hex_array(word)?;
    Some(KeyId { bytes })
}

pub(crate) fn read_address(word: &[u8]) -> Option<Address>
    ensures { result ≡ address_of word.now }
{
    let (ad, eid) = cut_at(word, b':')?;
    let ad = read_id(ad)?;
    let eid = read_id(eid)?;
    Some(Address { ad, eid })
}

pub(crate) fn read_cause(word: &[u8]) -> Option<Cause>
    ensures { result ≡ cause_of word.now }
{
    Cause::ALL
        .iter()
        .copied()
        .find(|&cause| cause.word() == word)
}

pub(crate) fn read_reason(word: &[u8]) -> Option<Reason>
    ensures { result ≡ reason_of word.now }
{
    Reason::ALL
        .iter()
        .copied()
        .find(|&reason| reason.word() == word)
}

// ---- writing: each appends a space and the field's word

pub(crate) fn push_name(line: &mut Vec<u8>, name: &Name) -> Result<(), AllocError>
    ensures { OnOk result (line.new.items ≡ line.old.items ++ 32 ∷ name.now) }
{
    push_word(line, name.bytes())
}

pub(crate) fn push_count(line: &mut Vec<u8>, count: u64) -> Result<(), AllocError>
    ensures { OnOk result (line.new.items ≡ line.old.items ++ 32 ∷ decimal count) }
{
    push_space(line)?;
    push_number(line, count)
}

pub(crate) fn push_content(line: &mut Vec<u8>, bytes: &Bytes) -> Result<(), AllocError>
    ensures { OnOk result (line.new.items ≡ line.old.items ++ 32 ∷ bytes_word bytes.now) }
{
    push_space(line)?;
    push_bytes(line, bytes.as_slice())
}

pub(crate) fn push_target(line: &mut Vec<u8>, target: &Target) -> Result<(), AllocError>
    ensures { OnOk result (line.new.items ≡ line.old.items ++ 32 ∷ target_word target.now) }
{
    match target {
        Target::Port { router, port } => push_port(line, router, *port),
        Target::Host { name } => push_name(line, name),
    }
}

fn push_port(line: &mut Vec<u8>, router: &Name, port: u64) -> Result<(), AllocError>
    ensures { OnOk result (line.new.items ≡ line.old.items ++ 32 ∷ router.now ++ 47 ∷ decimal port) }
{
    push_name(line, router)?;
    push_text(line, b"/")?;
    push_number(line, port)
}

pub(crate) fn push_id(line: &mut Vec<u8>, id: &Id) -> Result<(), AllocError>
    ensures { OnOk result (line.new.items ≡ line.old.items ++ 32 ∷ id_word id.now) }
{
    push_space(line)?;
    push_hex(line, &id.bytes)
}

pub(crate) fn push_key_id(line: &mut Vec<u8>, id: &KeyId) -> Result<(), AllocError>
    ensures { OnOk result (line.new.items ≡ line.old.items ++ 32 ∷ key_id_word id.now) }
{
    push_space(line)?;
    push_hex(line, &id.bytes)
}

pub(crate) fn push_address(line: &mut Vec<u8>, address: &Address) -> Result<(), AllocError>
    ensures { OnOk result (line.new.items ≡ line.old.items ++ 32 ∷ address_word address.now) }
{
    push_id(line, &address.ad)?;
    push_text(line, b":")?;
    push_hex(line, &address.eid.bytes)
}
