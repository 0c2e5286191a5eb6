//! Replies.
ghost use Rattle.std.specs.Prelude.{◌≡◌, ◌++◌, ◌<◌, false, codes, IfOk, OnOk};
ghost use Rattle.std.specs.Fmt.{digit_glyph};
ghost use Rattle.event_core.specs.Texts.{reply_text, hex_text, found_text};

use event_core::{Found, Reply};
use guest_base::{Bytes, Items};
use std::alloc::{AllocError, Global};

/// The text of a reply, without a line feed.
pub fn print_reply(alloc: Global, reply: &Reply) -> Result<Bytes, AllocError>
    ensures { IfOk result (λ text. text ≡ reply_text reply.now) }
{
    match reply {
        Reply::Addr(address) => {
            let text = format!(in alloc; "ok 0x{address:x}")?;
            Ok(Items::from_vec(text.into_bytes()))
        }
        Reply::Count(units) => {
            let text = format!(in alloc; "ok {units}")?;
            Ok(Items::from_vec(text.into_bytes()))
        }
        Reply::Hex(bytes) => print_bytes(alloc, bytes.as_slice(), None),
        Reply::Loaded(bytes, after) => print_bytes(alloc, bytes.as_slice(), *after),
        Reply::Done => bytes_of(alloc, b"ok"),
        Reply::Query(true) => bytes_of(alloc, b"ok unaccepted"),
        Reply::Query(false) => bytes_of(alloc, b"ok accepted"),
        Reply::NoBlock => bytes_of(alloc, b"noblock"),
        Reply::Unknown => bytes_of(alloc, b"unknown"),
        Reply::Taken => bytes_of(alloc, b"taken"),
        Reply::Range => bytes_of(alloc, b"range"),
        Reply::IsShared => bytes_of(alloc, b"shared"),
        Reply::IsPrivate => bytes_of(alloc, b"private"),
        Reply::Half => bytes_of(alloc, b"half"),
        Reply::Mapped => bytes_of(alloc, b"mapped"),
        Reply::TooLong => bytes_of(alloc, b"toolong"),
        Reply::Zero => bytes_of(alloc, b"zero"),
        Reply::Full => bytes_of(alloc, b"full"),
        Reply::NoPool => bytes_of(alloc, b"nopool"),
        Reply::Small => bytes_of(alloc, b"small"),
        Reply::NoUnit => bytes_of(alloc, b"nounit"),
        Reply::Module => bytes_of(alloc, b"module"),
    }
}

fn bytes_of(alloc: Global, text: &[u8]) -> Result<Bytes, AllocError>
    ensures { IfOk result (λ bytes. bytes ≡ text.now) }
{
    Ok(Items::from_vec(Vec::from_slice(alloc, text)?))
}

fn print_bytes(alloc: Global, bytes: &[u8], after: Option<Found>) -> Result<Bytes, AllocError>
    ensures { IfOk result (λ text. text ≡ codes "ok " ++ hex_text bytes.now ++ found_text after) }
{
    let mut text = Vec::from_slice(alloc, b"ok ")?;
    push_hex(&mut text, bytes)?;
    text.extend_from_slice(found_words(after))?;
    Ok(Items::from_vec(text))
}

fn found_words(after: Option<Found>) -> &'static [u8]
    ensures { result.now ≡ found_text after }
{
    match after {
        None => b"",
        Some(Found::Accepted) => b" accepted",
        Some(Found::Shared) => b" shared",
        Some(Found::Absent) => b" absent",
        Some(Found::Outside) => b" outside",
    }
}

/// Adds two lower case hexadecimal digits for each byte.
fn push_hex(text: &mut Vec<u8>, bytes: &[u8]) -> Result<(), AllocError>
    ensures { OnOk result (text.new.items ≡ text.old.items ++ hex_text bytes.now) }
{
    for byte in bytes {
        text.push(hex_digit(byte / 16))?;
        text.push(hex_digit(byte % 16))?;
    }
    Ok(())
}

fn hex_digit(digit: u8) -> u8
    requires { digit < 16 }
    ensures { result ≡ digit_glyph false digit }
{
    if digit < 10 {
        b'0' + digit
    } else {
        b'a' + (digit - 10)
    }
}
