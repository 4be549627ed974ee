ghost use Rattle.std.specs.Prelude.{◌≡◌, ◌++◌, ◌∷◌, IfOk, decimal};
ghost use Rattle.aip_text.specs.Words.{bytes_word};

use crate::fields::{push_content, push_count, push_name};
use aip_addr::{Bytes, Name};
use std::alloc::{AllocError, Global};

// The lines that several inputs and events share: a first word, and the same fields after it.

pub(crate) fn number_line(alloc: Global, key: &[u8], number: u64) -> Result<Vec<u8>, AllocError>
    ensures { IfOk result (λ line. line.items ≡ key.now ++ 32 ∷ decimal number) }
{
    let mut line = Vec::from_slice(alloc, key)?;
    push_count(&mut line, number)?;
    Ok(line)
}

pub(crate) fn name_line(alloc: Global, key: &[u8], name: &Name) -> Result<Vec<u8>, AllocError>
    ensures { IfOk result (λ line. line.items ≡ key.now ++ 32 ∷ name.now) }
{
    let mut line = Vec::from_slice(alloc, key)?;
    push_name(&mut line, name)?;
    Ok(line)
}

pub(crate) fn name_bytes_line(
    alloc: Global,
    key: &[u8],
    name: &Name,
    bytes: &Bytes,
) -> Result<Vec<u8>, AllocError>
    ensures { IfOk result (λ line. line.items ≡ key.now ++ 32 ∷ name.now ++ 32 ∷ bytes_word bytes.now) }
{
    let mut line = name_line(alloc, key, name)?;
    push_content(&mut line, bytes)?;
    Ok(line)
}

pub(crate) fn name_number_line(
    alloc: Global,
    key: &[u8],
    name: &Name,
    number: u64,
) -> Result<Vec<u8>, AllocError>
    ensures { IfOk result (λ line. line.items ≡ key.now ++ 32 ∷ name.now ++ 32 ∷ decimal number) }
{
    let mut line = name_line(alloc, key, name)?;
    push_count(&mut line, number)?;
    Ok(line)
}

pub(crate) fn name_numbers_line(
    alloc: Global,
    key: &[u8],
    name: &Name,
    first: u64,
    second: u64,
) -> Result<Vec<u8>, AllocError>
    ensures { IfOk result (λ line. line.items ≡ key.now ++ 32 ∷ name.now ++ 32 ∷ decimal first ++ 32 ∷ decimal second) }
{
    let mut line = name_number_line(alloc, key, name, first)?;
    push_count(&mut line, second)?;
    Ok(line)
}
