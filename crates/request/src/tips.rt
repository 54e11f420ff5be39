// What is said of words that are refused: the text of `clap`, with tips of the program's own. Those of `clap` are
// names that look alike, whether or not they mean the same.

use clap::Error;
use clap::error::ErrorKind;
use std::alloc::{AllocError, Global};

const TIP: &str = "\n\n  tip: ";

const USAGE: &str = "\n\nUsage: ";

const HELP: &str = "\n\nFor more information, try '--help'.\n";

const COMMANDS: &str =
    "'sums hash -a sha256 FILE' prints a digest, and 'sums check LIST' checks a list";

const CHECK: &str = "'sums check LIST' checks a list";

const PARALLEL: &str = "'sums-parallel' uses all cores";

const ALGORITHM: &str = "the algorithm is set by '-a'";

const QUIET: &str = "'sums check LIST | sed \"/: OK$/d\"' prints what is not OK";

const STATUS: &str = "'sums check LIST > /dev/null' has the status alone";

const SOME: &str = "'grep -F -e FILE LIST' prints the lines of one file of a list";

const STRICT: &str = "'sums check LIST' always prints malformed lines, with status 1";

const FOLDER: &str =
    "'find FOLDER -type f -print0 | sums hash -a sha256 --files0-from -' hashes a folder";

// What there is here for options of other programs, by how these begin.
const OPTIONS: [(&str, &str); 21] = [
    ("--al", ALGORITHM),
    ("--sha1", ALGORITHM),
    ("--sha2", ALGORITHM),
    ("--sha5", ALGORITHM),
    ("--md5", ALGORITHM),
    ("--b", ALGORITHM),
    ("--le", "the length is set by '-l'"),
    ("-c", CHECK),
    ("--check", CHECK),
    ("-j", PARALLEL),
    ("--jobs", PARALLEL),
    ("--num-threads", PARALLEL),
    ("-r", FOLDER),
    ("--recursive", FOLDER),
    ("--quiet", QUIET),
    ("-q", QUIET),
    ("--status", STATUS),
    ("--ignore-missing", SOME),
    ("--strict", STRICT),
    ("--warn", STRICT),
    ("-w", STRICT),
];

/// The text of an error: that of `clap`, for wrong words with other tips.
pub fn text_of(alloc: Global, error: &Error) -> Result<String, AllocError> {
    let text = format!(in alloc; "{error}")?;
    if error.use_stderr() {
        if let Some((front, "")) = text.as_str().rsplit_once(HELP) {
            return retold(alloc, error.kind(), front);
        }
    }
    Ok(text)
}

// The same text with other tips.
fn retold(alloc: Global, kind: ErrorKind, front: &str) -> Result<String, AllocError> {
    let (front, mut usage) = parted(front, USAGE);
    let (said, tip) = parted(front, TIP);
    let mut text = String::from_str(alloc, said)?;
    match kind {
        ErrorKind::InvalidSubcommand => push_commands(&mut text, tip)?,
        ErrorKind::UnknownArgument if usage.ends_with(" <COMMAND>") => {
            push_commands(&mut text, tip)?
        }
        ErrorKind::UnknownArgument => {
            if !push_option(&mut text, said, tip)? {
                usage = "";
            }
        }
        ErrorKind::InvalidValue => push_value(alloc, &mut text, said)?,
        _ => push_after(&mut text, TIP, tip)?,
    }
    push_after(&mut text, USAGE, usage)?;
    text.push_str(HELP)?;
    Ok(text)
}

// A text before the last such mark, and the rest behind it.
fn parted<'a>(text: &'a str, mark: &str) -> (&'a str, &'a str) {
    text.rsplit_once(mark).unwrap_or((text, ""))
}

fn push_after(text: &mut String, mark: &str, rest: &str) -> Result<(), AllocError> {
    if rest.is_empty() {
        return Ok(());
    }
    text.push_str(mark)?;
    text.push_str(rest)
}

// Where no command is named: one that is named nearly so, and the two that most want.
fn push_commands(text: &mut String, tip: &str) -> Result<(), AllocError> {
    push_after(text, TIP, tip)?;
    text.push_str(if tip.is_empty() { TIP } else { "\n  tip: " })?;
    text.push_str(COMMANDS)
}

// Of an option that a command lacks: what there is in its place, one that begins as it does, or how a file of its name
// is given. Whether the usage is that of other words than an option which only looks alike.
fn push_option(text: &mut String, said: &str, tip: &str) -> Result<bool, AllocError> {
    let word = quoted(said);
    for (front, here) in OPTIONS {
        if word.starts_with(front) {
            push_after(text, TIP, here)?;
            return Ok(!tip.starts_with("a similar"));
        }
    }
    if tip.starts_with("to pass") {
        write!(text, "{TIP}if '{word}' is a file, use '-- {word}'")?;
        return Ok(true);
    }
    let is_meant = quoted(tip).get(..4) == word.get(..4);
    if is_meant {
        push_after(text, TIP, tip)?;
    }
    Ok(is_meant || tip.is_empty())
}

// What stands first in quotes.
fn quoted(text: &str) -> &str {
    let (_, rest) = text.split_once('\'').unwrap_or(("", ""));
    rest.split_once('\'').unwrap_or((rest, "")).0
}

// Of a value that `-a` does not take: the possible one that has its letters and digits, in small letters, or else the
// HMAC over it.
fn push_value(alloc: Global, text: &mut String, said: &str) -> Result<(), AllocError> {
    let Some((names, _)) = parted(said, "[possible values: ").1.split_once(']') else {
        return Ok(());
    };
    let value = quoted(said);
    let keyed = format!(in alloc; "hmac{value}")?;
    for wanted in [value, keyed.as_str()] {
        let wanted = letters(alloc, wanted)?;
        for name in names.split(", ") {
            if letters(alloc, name)?.as_slice() == wanted.as_slice() {
                return write!(text, "{TIP}a similar value exists: '{name}'");
            }
        }
    }
    Ok(())
}

// The letters and digits of a text, in small letters.
fn letters(alloc: Global, text: &str) -> Result<Vec<u8>, AllocError> {
    let mut letters = Vec::new(alloc);
    for byte in text.as_bytes() {
        if byte.is_ascii_alphanumeric() {
            letters.push(byte.to_ascii_lowercase())?;
        }
    }
    Ok(letters)
}
