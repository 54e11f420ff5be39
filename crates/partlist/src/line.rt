// The line of a part.

ghost use Rattle.std.specs.Prelude.{◌≡◌, ℕ, ◌<◌, ◌^◌, ◌≤◌, List, ◌++◌, ◌∷◌, [], Some, MatchOption, length};
ghost use Rattle.std.specs.Fmt.{decimal};
ghost use Rattle.hex.specs.Hex.{IsBytes, encode_lower};
ghost use Rattle.words.specs.Words.{word_bytes, words};
ghost use Rattle.source.specs.Written.{Writes};
ghost use Rattle.partlist.specs.PartLine.{LineTells, part_line};

use b3::PartValue;
use itoa::Buffer;
use source::{Sink, WriteFailed, write_pieces};
use sumlist::split_at_byte;

const HEAD: [u8; 19] = *b"sums-part-1 blake3 ";

/// Writes the part's one line, with its LF: `sums-part-1 blake3 FIRST LENGTH VALUE`, the numbers of its first
/// chunk and of its bytes in decimal, and the chaining value in 64 lower-case digits.
pub fn write_part<W: Sink>(part: &PartValue, out: &mut W) -> Result<(), WriteFailed>
    ensures { Writes result (W.shown out.old) (W.shown out.new)
        (part_line part.now.first_chunk part.now.len (word_bytes 4 part.now.value) ++ 10 ∷ []) }
{
    let (mut first, mut len, digits) = (Buffer::new(), Buffer::new(), digits_of(part));
    let first = first.format(part.first_chunk()).as_bytes();
    let len = len.format(part.len()).as_bytes();
    write_pieces(out, &[&HEAD, first, b" ", len, b" ", &digits, b"\n"])
}

// The digits of its chaining value.
fn digits_of(part: &PartValue) -> [u8; 64]
    ensures { result ≡ encode_lower (word_bytes 4 part.now.value) }
{
    let mut digits = [0; 64];
    hex::encode_to_slice(part.bytes().as_slice(), &mut digits).unwrap();
    digits
}

/// The part that a line without its LF describes. There is none if `write_part` would not spell the part so,
/// or if its bytes cannot stand where the line says.
pub fn parse_part(line: &[u8]) -> Option<PartValue>
    ensures { MatchOption result
        ((first len : ℕ) (value : List ℕ) → LineTells line.now first len value → ⊥)
        (λ part. (value : List ℕ) × LineTells line.now part.first_chunk part.len value
        × (part.value ≡ words 4 8 value)) }
{
    let rest = line.strip_prefix(&HEAD)?;
    let (first, rest) = cut_number(rest)?;
    let (len, digits) = cut_number(rest)?;
    let value = value_of(digits)?;
    PartValue::of_bytes(first, len, &value).ok()
}

// A number and a space, and what follows them.
fn cut_number(text: &[u8]) -> Option<(u64, &[u8])>
    ensures { MatchOption result
        ((n : ℕ) (rest : List ℕ) → n < 2 ^ 64 → text.now ≡ decimal n ++ 32 ∷ rest → ⊥)
        (λ p. (p.0 < 2 ^ 64) × (text.now ≡ decimal p.0 ++ 32 ∷ p.1.now)) }
{
    let (digits, rest) = split_at_byte(text, b' ')?;
    Some((number_of(digits)?, rest))
}

// The number that decimal digits without a leading zero spell.
fn number_of(digits: &[u8]) -> Option<u64>
    ensures { MatchOption result ((n : ℕ) → n < 2 ^ 64 → digits.now ≡ decimal n → ⊥)
        (λ n. (n < 2 ^ 64) × (digits.now ≡ decimal n)) }
{
    let number = read_number(digits)?;
    if Buffer::new().format(number).as_bytes() == digits {
        Some(number)
    } else {
        None
    }
}

// The number that digits spell, in whatever form.
fn read_number(digits: &[u8]) -> Option<u64>
    ensures { (n : ℕ) → n < 2 ^ 64 → digits.now ≡ decimal n → result ≡ Some n }
{
    match std::str::from_utf8(digits) {
        Ok(text) => text.parse::<u64>().ok(),
        Err(_) => None,
    }
}

// The bytes that 64 lower-case digits spell.
fn value_of(digits: &[u8]) -> Option<[u8; 32]>
    ensures { MatchOption result
        ((value : List ℕ) → IsBytes value → length value ≡ 32 → digits.now ≡ encode_lower value → ⊥)
        (λ value. IsBytes value × (length value ≡ 32) × (digits.now ≡ encode_lower value)) }
{
    let value = read_value(digits)?;
    let mut text = [0; 64];
    hex::encode_to_slice(value.as_slice(), &mut text).unwrap();
    if text.as_slice() == digits {
        Some(value)
    } else {
        None
    }
}

// The bytes that 64 digits spell, in either case.
fn read_value(digits: &[u8]) -> Option<[u8; 32]>
    ensures { (value : List ℕ) → IsBytes value → length value ≡ 32 → digits.now ≡ encode_lower value
        → result ≡ Some value }
{
    let mut value = [0; 32];
    match hex::decode_to_slice(digits, &mut value) {
        Ok(()) => Some(value),
        Err(_) => None,
    }
}
