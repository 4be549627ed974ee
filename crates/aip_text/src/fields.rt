ghost use Rattle.std.specs.Prelude.{◌≡◌, IfSome, Some};
ghost use Rattle.std.specs.Option.{option_map};
ghost use Rattle.aip_addr.specs.Naming.{IsName};
ghost use Rattle.aip_addr.specs.declared.ids.Id.{Id};
ghost use Rattle.aip_text.specs.Fields.{IsId, five_words, four_words, id_of, id_word, name_of, three_words};

use crate::reading::{cut, read_hex_array};
use aip_addr::{Id, Name};

/// The name that the word is.
#[tactic(auto, using(crate::proofs::FieldLaws::name_found_in, crate::proofs::FieldLaws::name_again_in))]
pub fn read_name(word: &[u8]) -> Option<Name>
    ensures exact { result ≡ name_of word.now }
    ensures found { IfSome result (λ name. IsName name × (word.now ≡ name)) }
    ensures again { IsName word.now → result ≡ Some word.now }
{
    Name::read(word)
}

/// The id of 20 bytes that the word spells in hex, by 40 digits in lower case.
pub fn read_id(word: &[u8]) -> Option<Id>
    ensures exact { result ≡ id_of word.now }
    ensures found { IfSome result (λ id. IsId id × (word.now ≡ id_word id)) }
    ensures again { (id : Id) → IsId id → word.now ≡ id_word id → result ≡ Some id }
{
    id_in(word)
}

fn id_in(word: &[u8]) -> Option<Id>
    ensures { result ≡ id_of word.now }
{
    match read_hex_array(word) {
        Some(bytes) => Some(Id { bytes }),
        None => None,
    }
}

/// Two words and the rest, with one space between them.
pub fn three_words(rest: &[u8]) -> Option<(&[u8], &[u8], &[u8])>
    ensures { option_map (λ words. (words.0.now, words.1.now, words.2.now)) result ≡ three_words rest.now }
{
    let (first, rest) = cut(rest)?;
    let (second, third) = cut(rest)?;
    Some((first, second, third))
}

/// Three words and the rest, with one space between them.
pub fn four_words(rest: &[u8]) -> Option<(&[u8], &[u8], &[u8], &[u8])>
    ensures { option_map (λ words. (words.0.now, words.1.now, words.2.now, words.3.now)) result ≡ four_words rest.now }
{
    let (first, rest) = cut(rest)?;
    let (second, rest) = cut(rest)?;
    let (third, fourth) = cut(rest)?;
    Some((first, second, third, fourth))
}

/// Four words and the rest, with one space between them.
pub fn five_words(rest: &[u8]) -> Option<(&[u8], &[u8], &[u8], &[u8], &[u8])>
    ensures { option_map (λ words. (words.0.now, words.1.now, words.2.now, words.3.now, words.4.now)) result ≡ five_words rest.now }
{
    let (first, rest) = cut(rest)?;
    let (second, rest) = cut(rest)?;
    let (third, rest) = cut(rest)?;
    let (fourth, fifth) = cut(rest)?;
    Some((first, second, third, fourth, fifth))
}
