// Names as they appear in messages on standard error.

ghost use Rattle.source.specs.Written.{Writes};
ghost use Rattle.command.specs.Visible.{visible, visible_char};

use source::{Sink, WriteFailed, write_all};

// The characters that separate lines, or mark, embed, override or isolate the direction of a text, or end such a
// direction.
const LAYOUT: [char; 14] = [
    '\u{061c}', '\u{200e}', '\u{200f}', '\u{2028}', '\u{2029}', '\u{202a}', '\u{202b}', '\u{202c}',
    '\u{202d}', '\u{202e}', '\u{2066}', '\u{2067}', '\u{2068}', '\u{2069}',
];

/// Writes any name as a text of one line without a command to a terminal: in the escaped form of lists, with
/// each other control character as `\xHH`, and each character that separates lines or sets the direction of a
/// text as `\u{HHHH}`.
pub fn write_visible<W: Sink>(name: &str, out: &mut W) -> Result<(), WriteFailed>
    ensures { Writes result (W.shown out.old) (W.shown out.new) (visible name.now) }
{
    for character in name.chars() {
        write_char(character, out)?;
    }
    Ok(())
}

fn write_char<W: Sink>(character: char, out: &mut W) -> Result<(), WriteFailed>
    ensures { Writes result (W.shown out.old) (W.shown out.new) (visible_char character) }
{
    match character {
        '\\' => write_all(out, b"\\\\"),
        '\n' => write_all(out, b"\\n"),
        '\r' => write_all(out, b"\\r"),
        _ if character.is_control() => {
            let mut digits = [0; 2];
            hex::encode_to_slice(&[character as u8], &mut digits).unwrap();
            write_all(out, b"\\x")?;
            write_all(out, &digits)
        }
        _ if LAYOUT.contains(&character) => {
            let mut digits = [0; 4];
            hex::encode_to_slice(&(character as u16).to_be_bytes(), &mut digits).unwrap();
            write_all(out, b"\\u{")?;
            write_all(out, &digits)?;
            write_all(out, b"}")
        }
        _ => write_all(out, character.encode_utf8(&mut [0; 4]).as_bytes()),
    }
}
